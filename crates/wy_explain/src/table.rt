//! What is said of each rule, and the features by the words at which they are refused, as data.
//! In a form the word Name stands for each word that begins with a capital letter, name for each that
//! begins with a small one, and a quotation mark for each String.

/// What is said where a rule is broken.
pub struct Saying {
    pub rule: &'static str,
    pub says: &'static str,
}

/// A feature that is left out, or a slip, which is no Java either, and what to write in its place.
#[derive(Clone, Copy)]
pub struct Feature {
    pub name: &'static str,
    pub is_java: bool,
    pub instead: &'static str,
}

/// A feature by the words that it is refused at.
pub struct Row {
    pub words: &'static [&'static str],
    pub feature: Feature,
}

/// A feature by the word that it is refused at and those around it in its statement. An empty list
/// asks for nothing.
pub struct Form {
    /// One of these is refused.
    pub here: &'static [&'static str],
    /// One of these stands before it.
    pub before: &'static [&'static str],
    /// These stand one after another somewhere before it.
    pub within: &'static [&'static str],
    /// One of these stands behind it.
    pub ahead: &'static [&'static str],
    pub feature: Feature,
}

macro_rules! saying {
    ($rule:literal: $says:literal) => {
        Saying {
            rule: $rule,
            says: $says,
        }
    };
}

macro_rules! feature {
    (java, $name:literal, $instead:literal) => {
        Feature {
            name: $name,
            is_java: true,
            instead: $instead,
        }
    };
    (slip, $name:literal, $instead:literal) => {
        Feature {
            name: $name,
            is_java: false,
            instead: $instead,
        }
    };
}

macro_rules! row {
    ($($word:literal)*: $kind:ident, $name:literal, $instead:literal) => {
        Row {
            words: &[$($word),*],
            feature: feature!($kind, $name, $instead),
        }
    };
}

macro_rules! form {
    ([$($here:literal)*] [$($before:literal)*] [$($within:literal)*] [$($ahead:literal)*]:
        $kind:ident, $name:literal, $instead:literal) => {
        Form {
            here: &[$($here),*],
            before: &[$($before),*],
            within: &[$($within),*],
            ahead: &[$($ahead),*],
            feature: feature!($kind, $name, $instead),
        }
    };
}

pub static SAYINGS: [Saying; 20] = [
    saying!("NotUtf8": "The file is no text in UTF-8: no character begins with the byte here."),
    saying!("BadToken": "No word, number or sign of Java begins here."),
    saying!("BadLiteral": "A number, a character or a String begins here that cannot be read."),
    saying!("Syntax":
        "This cannot follow what stands before it; the cause may be above, as a missing ; or )."),
    saying!("Duplicate": "This is declared a second time."),
    saying!("UnknownName": "No class, variable or field of this name is known here."),
    saying!("Cycle": "This class or interface is above itself."),
    saying!("BadOverride":
        "This does not fit the method that it overrides, or the class that it extends."),
    saying!("NotImplemented":
        "A body is missing or too much, or an object of an abstract class is made."),
    saying!("NoMethod": "No method or constructor of this name takes these arguments."),
    saying!("Ambiguous":
        "Several methods or constructors take these arguments, and none of them fits best."),
    saying!("BadOperand": "The type of a value does not fit the operator or the statement here."),
    saying!("BadAssign":
        "The value does not fit the type of the variable, or the variable is final."),
    saying!("BadCast": "A value of this type can never be of that one."),
    saying!("Private": "This is private in another class."),
    saying!("NotInStatic": "This needs an object, and a static method has none."),
    saying!("NotOffered": "The class of the library does not have this here."),
    saying!("BadJump": "There is no loop or label here that this could leave."),
    saying!("BadReturn": "The value, or its absence, does not fit the result of the method."),
    saying!("NoMain": "No class has a method public static void main(String[] args)."),
];

/// The words at which `Syntax` stops.
pub static WORDS: [Row; 18] = [
    row!("import": java, "An import", "nothing, since what can be used needs no import"),
    row!("package": java, "A package", "nothing"),
    row!("enum": java, "An enum", "constants, as static final int RED = 0;"),
    row!("record": java, "A record", "a class with fields and a constructor"),
    row!("sealed": java, "A sealed type", "the same without sealed and permits"),
    row!("switch" "case": java, "A switch", "if and else if"),
    row!("default": java, "A default, of a switch or an interface,", "else, or an abstract class"),
    row!("double" "float":
        java, "A number with a fraction (double, float)", "whole numbers, as cents for euros"),
    row!("assert": java, "An assert", "if and throw"),
    row!("synchronized" "volatile":
        java, "A word for threads", "nothing, since a program here has one thread"),
    row!("native" "strictfp" "transient": java, "This keyword", "the same without it"),
    row!("class" "interface":
        java, "A class or interface inside another or in a method",
        "the same beside the others, in this file"),
    row!("...": java, "A list of arguments of any length", "an array, as int[] xs"),
    row!("->": java, "A lambda", "an interface, and a class that implements it"),
    row!("::": java, "A reference to a method", "an interface, and a class that implements it"),
    row!("2147483648" "9223372036854775808L":
        slip, "A number as large as this, without a minus sign,",
        "an L behind it, up to 9223372036854775807L"),
    row!("": slip, "An end of the text in the middle of a class", "a } for each { that is open"),
    row!("public" "private" "protected" "static" "abstract" "void":
        slip, "A method or a field inside a method", "a } above it, if one is missing there"),
];

/// The names that are unknown.
pub static NAMES: [Row; 16] = [
    row!("Scanner" "BufferedReader" "InputStreamReader" "Console":
        java, "A Scanner or another reader", "System.in.read(), and the input by -i"),
    row!("StringBuilder" "StringBuffer" "StringJoiner":
        java, "A StringBuilder", "+ and += on a String"),
    row!("Character": java, "The class Character", "char, and comparisons as c >= '0' && c <= '9'"),
    row!("Integer" "Long" "Double" "Float" "Short" "Byte" "Boolean" "Number":
        java, "A class for numbers or booleans, as a type or for this method,",
        "int, long or boolean; Integer.parseInt and Integer.toString are there"),
    row!("var": java, "A variable without its type (var)", "the type"),
    row!("List" "ArrayList" "LinkedList" "Set" "HashSet" "TreeSet" "Map" "HashMap" "TreeMap"
    "Collection" "Iterator" "Iterable" "Queue" "Deque" "ArrayDeque" "PriorityQueue" "Stack" "Vector"
    "Optional" "Stream" "IntStream":
        java, "A collection", "an array, and a count beside it"),
    row!("Arrays" "Collections" "Objects" "Collectors":
        java, "A class with helpers, as Arrays,", "a loop"),
    row!("Random" "ThreadLocalRandom" "SecureRandom" "UUID":
        java, "A random number", "a number from the input"),
    row!("Thread" "ExecutorService" "Executors" "TimeUnit" "AtomicInteger" "CompletableFuture":
        java, "A thread", "nothing, since a program here has one thread"),
    row!("Comparable" "Comparator" "Runnable" "Callable" "Function" "BiFunction" "Supplier"
    "Consumer" "Predicate":
        java, "An interface of the library", "an interface of your own"),
    row!("IOException" "FileNotFoundException" "InterruptedException" "InputMismatchException"
    "NoSuchElementException" "TimeoutException" "UncheckedIOException":
        java, "An exception that needs an import", "Exception or RuntimeException"),
    row!("BigInteger" "BigDecimal" "LocalDate" "LocalTime" "LocalDateTime" "Duration" "Instant"
    "DecimalFormat" "File" "Files" "Path" "Paths" "FileReader" "FileWriter" "PrintWriter"
    "PrintStream":
        java, "A class that needs an import", "a class of your own, beside the others"),
    row!("record": java, "A record", "a class with fields and a constructor"),
    row!("string": slip, "The word string", "String"),
    row!("bool": slip, "The word bool", "boolean"),
    row!("system": slip, "The word system", "System"),
];

/// The members that the library does not have here.
pub static CALLS: [Row; 16] = [
    row!("printf" "format" "formatted" "join": java, "Formatted text", "print, println and +"),
    row!("contains" "indexOf" "lastIndexOf" "startsWith" "endsWith" "toUpperCase" "toLowerCase"
    "trim" "strip" "replace" "replaceAll" "split" "equalsIgnoreCase" "toCharArray" "chars" "repeat"
    "concat" "matches" "isBlank" "compareToIgnoreCase":
        java, "This method of String", "a loop over charAt, with length() and substring"),
    row!("hashCode" "getClass" "clone" "wait" "notify":
        java, "This method of Object", "a method of your own"),
    row!("random": java, "A random number", "a number from the input"),
    row!("sqrt" "pow" "cbrt" "floor" "ceil" "round" "floorMod" "floorDiv" "hypot" "exp" "log"
    "log10" "sin" "cos" "tan" "PI" "E" "addExact" "multiplyExact" "signum":
        java, "This part of Math", "a loop; Math.abs, max and min are there"),
    row!("exit": java, "An end by System.exit", "return, or an exception"),
    row!("currentTimeMillis" "nanoTime":
        java, "The clock", "nothing, since a run here is the same each time"),
    row!("arraycopy": java, "A copy by System.arraycopy", "a loop"),
    row!("err": java, "The second output System.err", "System.out"),
    row!("flush" "write" "append": java, "This method of System.out", "print and println"),
    row!("readLine" "available" "readAllBytes":
        java, "This method of System.in", "System.in.read(), a byte at a time"),
    row!("valueOf" "parseLong" "parseDouble" "compare" "toBinaryString" "toHexString" "intValue"
    "sum" "bitCount":
        java, "This method of Integer, Long or String",
        "Integer.parseInt, Integer.toString, or String.valueOf of one value"),
    row!("printStackTrace" "getCause" "getStackTrace":
        java, "This method of an exception", "getMessage() and toString()"),
    row!("length":
        slip, "A length() of an array, or a length without () of a String,",
        "xs.length for an array, s.length() for a String"),
    row!("Println" "PrintLn" "printLn" "Print":
        slip, "A print or println with other capital letters",
        "System.out.println, with small letters"),
    row!("Out" "In": slip, "A capital letter in System.out or System.in", "a small one"),
];

/// What no token begins with, by its sample.
pub static BYTES: [Row; 14] = [
    row!("1.5":
        java, "A number with a fraction, an exponent, d or f", "whole numbers, as cents for euros"),
    row!("08": slip, "A number with a 0 in front and a digit 8 or 9", "the number without the 0"),
    row!("99999999999":
        slip, "A whole number as large as this",
        "a number up to 2147483647, or with L up to 9223372036854775807L"),
    row!("0x":
        slip, "A hexadecimal number that is too large or has other letters",
        "0x and up to 8 of 0 to 9 and A to F, or up to 16 and an L"),
    row!("3px":
        slip, "A number with such letters, or with _ at its end,",
        "digits, or a name that begins with a letter"),
    row!("''":
        slip, "A character literal without a character",
        "one character between the quotes, or \"\" for an empty String"),
    row!("'":
        slip, "A character literal of several characters, or without its end,",
        "double quotes, for a String"),
    row!("\"":
        slip, "A String without its \" on the line, or with an unknown escape,",
        "a \" on the same line, and \\\\ for a backslash"),
    row!("\"\"\"":
        java, "A text block", "Strings in double quotes, one a line, with + between them"),
    row!("/*": slip, "A comment without its */", "*/ where it ends"),
    row!("mark":
        slip, "A byte order mark at the start of the file", "the file saved as UTF-8 without one"),
    row!("quotes": slip, "A curly quotation mark", "the straight one"),
    row!("letter":
        java, "A letter or sign outside ASCII, in no String, character or comment,", "a to z"),
    row!("#": slip, "The sign #", "// for a comment"),
];

/// The forms at which `Syntax` stops.
pub static FORMS: [Form; 16] = [
    form!([":"] [] ["for" "("] []:
        java, "A for over elements (for each)",
        "a counter, as for (int i = 0; i < xs.length; i++)"),
    form!(["|"] [] ["catch" "("] []: java, "A catch of several exceptions", "a catch for each"),
    form!(["{"] [")"] ["new" "Name" "("] []:
        java, "A class without a name", "a class with a name, beside the others"),
    form!(["{"] [")"] [] []:
        java, "A method with a body in an interface",
        "an abstract class, or the body in each class that implements it"),
    form!(["{"] ["]"] [] []:
        slip, "An array with a length and braces", "the length alone, or new int[] and the braces"),
    form!(["="] ["Name"] [] []:
        java, "A constant in an interface",
        "the constant in a class, as static final int MAX = 5;"),
    form!([] ["@"] [] []: java, "An annotation but @Override", "the same without it"),
    form!(["("] ["try"] [] []: java, "A try with resources", "try and finally"),
    form!(["name"] ["Name"] ["instanceof" "Name"] []:
        java, "A variable behind instanceof", "instanceof alone, and a cast below it"),
    form!(["\""] ["\"\""] [] []:
        java, "A text block", "Strings in double quotes, one a line, with + between them"),
    form!(["("] [] ["record" "Name"] []: java, "A record", "a class with fields and a constructor"),
    form!([")" ","] [] [] ["->"]: java, "A lambda", "an interface, and a class that implements it"),
    form!(["<"] ["Name" "static" "public" "private" "protected" "final" "abstract"] [] []:
        java, "A type parameter in < and >",
        "the type that is meant; for a list an array, and a count beside it"),
    form!(["int" "long" "char" "boolean" "byte" "short" "?"] ["<"] [] []:
        java, "A type parameter in < and >",
        "the type that is meant; for a list an array, and a count beside it"),
    form!([] [] ["Name" "<" "Name"] []:
        java, "A type parameter in < and >",
        "the type that is meant; for a list an array, and a count beside it"),
    form!([] [] ["java" "." "util"] []:
        java, "A class of java.util",
        "a class of your own; for a list an array, and a count beside it"),
];
