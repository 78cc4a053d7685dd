//! Whole programs: the places and numbers of statements, their forms, jumps and reaches, locals, and constant texts. In what is
//! expected, numbers below 74 are those of the library's statements, methods below 36 and classes below 18 its own.

use crate::listed::listed;
use crate::source::read;
use crate::{bodies, kinds, members};
use std::test::Fail;

// What a class implies: the unit of its fields, and its constructor.
const FIELDS: (&str, &str) = (
    "class Lamp {
  int watts = 9;
  boolean lit;
  { lit = true; }
  static int made;
  static { made = 1; }
  public static void main(String[] shades) { new Lamp(); }
}
",
    "m36 <fields> @1 to 1: this@1 #18
75 Block @1: [78 79]
78 Eval @4 ask: (=@4 (f1@4 l0) 9)
79 Block @11: [80]
80 Eval @12 ask: (=@13 (f2@12 l0) true)
m37 new @1 to 1: this@1 #18
76 Block @1: [77]
77 Eval @1: (direct@1 m36 l0)
m38 main @31 to 44: shades@36 #1[]
83 Block @38: [84]
84 Eval @39 ask: (new@39 #18 m37)
init 18 to 1:
74 Block @1: [81]
81 Block @22: [82]
82 Eval @23 ask: (=@24 s3@23 1)
texts \": \"
main 38 of 85
",
);

// A jump to the body of a labelled loop, and one out of the inner loop.
const JUMPS: (&str, &str) = (
    "class Path {
  static int steps(int n) {
    int all = 0;
    rows: for (int i = 0; i < n; i++) {
      while (true) {
        if (all == i) continue rows;
        if (all > 5) break;
        all++;
      }
    }
    return all;
  }
  public static void main(String[] args) { }
}
",
    "m36 new @1 to 1: this@1 #18
75 Block @1: []
m37 steps @5 to 63: n@8 int, all@12 int, i@21 int
76 Block @10: [77 78 90]
77 Eval @12 ask: (=@12 l1 0)
78 Labelled @16 ask: 79
79 For @18 ask reach 79: [80] (<@26 l2 l0) [81] 82
80 Eval @21 ask: (=@21 l2 0)
81 Eval @29 ask: (old +=@30 int int int l2 -)
82 Block @32: [83]
83 While @33 ask reach 82: true 84
84 Block @37: [85 87 89]
85 If @38 ask reach 82: (==@41 l1 l2) 86 -
86 Jump @44 ask: 82
87 If @47 ask reach 83: (>@50 l1 5) 88 -
88 Jump @53 ask: 83
89 Eval @55 ask: (old +=@56 int int int l1 -)
90 Return @60 ask: l1
m38 main @67 to 75: args@72 #1[]
91 Block @74: []
init 18 to 1:
74 Block @1: []
texts \": \"
main 38 of 92
",
);

// Tests that guard `throw` and `return`, in each part of a `try`.
const GUARDS: (&str, &str) = (
    "class Gate {
  static int open(int key) throws Exception {
    try {
      if (key == 0) throw new Exception(\"none\");
      if (key < 0) return 1;
      try { if (key == 5) throw new Error(); } finally { }
    } catch (RuntimeException e) {
      if (key > 9) throw e;
    } finally {
      if (key > 8) { throw new Error(); }
    }
    return 2;
  }
  public static void main(String[] args) { }
}
",
    "m36 new @1 to 1: this@1 #18
75 Block @1: []
m37 open @5 to 92: key@8 int, e@59 #5
76 Block @12: [77 95]
77 Try @13 ask: 78 catch #5 l1@59 88 finally 91
78 Block @14: [79 81 83]
79 If @15 ask reach 77: (==@18 l0 0) 80 -
80 Throw @21 ask: (new@22 #3 m7 $1)
81 If @28 ask reach 76: (<@31 l0 0) 82 -
82 Return @34 ask: 1
83 Try @37 ask: 84 finally 87
84 Block @38: [85]
85 If @39 ask reach 77: (==@42 l0 5) 86 -
86 Throw @45 ask: (new@46 #4 m8)
87 Block @53: []
88 Block @61: [89]
89 If @62 ask reach 76: (>@65 l0 9) 90 -
90 Throw @68 ask: l1
91 Block @73: [92]
92 If @74 ask reach 76: (>@77 l0 8) 93 -
93 Block @80: [94]
94 Throw @81 ask: (new@82 #4 m8)
95 Return @89 ask: 2
m38 main @96 to 104: args@101 #1[]
96 Block @103: []
init 18 to 1:
74 Block @1: []
texts \": \" \"none\"
main 38 of 97
",
);

// Each kind of loop. A `for` without a condition makes no test.
const LOOPS: (&str, &str) = (
    "class Loops {
  public static void main(String[] args) {
    int i = 0;
    do { i++; if (i == 3) continue; } while (i < 9);
    for (;;) { if (i > 20) break; i += 2; }
    all: { for (int k = 0; ; k++) { if (k == i) break all; } }
    while (i > 0) if (i == 7) continue; else i--;
    for (i = 0, args = null; i < 2; i++, i++) ;
  }
}
",
    "m36 new @1 to 1: this@1 #18
75 Block @1: []
m37 main @6 to 124: args@11 #1[], i@15 int, k@65 int
76 Block @13: [77 78 83 88 96 100]
77 Eval @15 ask: (=@15 l1 0)
78 Do @19 ask reach 78: 79 (<@36 l1 9)
79 Block @20: [80 81]
80 Eval @21 ask: (old +=@22 int int int l1 -)
81 If @24 ask reach 79: (==@27 l1 3) 82 -
82 Jump @30 ask: 79
83 For @40 ask: [] - [] 84
84 Block @45: [85 87]
85 If @46 ask reach 83: (>@49 l1 20) 86 -
86 Jump @52 ask: 83
87 Eval @54 ask: (+=@55 int int int l1 2)
88 Labelled @59 ask: 89
89 Block @61: [90]
90 For @62 ask: [91] - [92] 93
91 Eval @65 ask: (=@65 l2 0)
92 Eval @70 ask: (old +=@71 int int int l2 -)
93 Block @73: [94]
94 If @74 ask reach 88: (==@77 l2 l1) 95 -
95 Jump @80 ask: 88
96 While @85 ask reach 96: (>@88 l1 0) 97
97 If @91 ask reach 97: (==@94 l1 7) 98 99
98 Jump @97 ask: 97
99 Eval @100 ask: (old -=@101 int int int l1 -)
100 For @103 ask reach 100: [101 102] (<@114 l1 2) [103 104] 105
101 Eval @105 ask: (=@106 l1 0)
102 Eval @109 ask: (=@110 l0 null)
103 Eval @117 ask: (old +=@118 int int int l1 -)
104 Eval @120 ask: (old +=@121 int int int l1 -)
105 Block @123 ask: []
init 18 to 1:
74 Block @1: []
texts \": \"
main 37 of 106
",
);

// What constructors call, written and implied.
const CONSTRUCTORS: (&str, &str) = (
    "class Base {
  int size = 1;
  Base(int n) { size = n; }
}
class Sub extends Base {
  final String name = \"s\";
  Sub() { this(2); size++; }
  Sub(int k) { super(k); ; }
  public static void main(String[] args) { new Sub(); }
}
",
    "m36 <fields> @1 to 1: this@1 #18
75 Block @1: [76]
76 Eval @4 ask: (=@4 (f1@4 l0) 1)
m37 new @8 to 18: this@8 #18, n@11 int
78 Block @13: [77 79]
77 Eval @8: (direct@8 m36 l0)
79 Eval @14 ask: (=@15 (f1@14 l0) l1)
m38 <fields> @21 to 21: this@21 #19
81 Block @21: [82]
82 Eval @27 ask: (=@27 (f2@27 l0) $1)
m39 new @31 to 43: this@31 #19
83 Block @34: [84 85]
84 Eval @35 ask: (direct@36 m40 l0 2)
85 Eval @40 ask: (old +=@41 int int int (f1@40 l0) -)
m40 new @44 to 56: this@44 #19, k@47 int
87 Block @49: [88 86 89]
88 Eval @50 ask: (direct@51 m37 l0 l1)
86 Eval @44: (direct@44 m38 l0)
89 Block @55 ask: []
m41 main @60 to 73: args@65 #1[]
90 Block @67: [91]
91 Eval @68 ask: (new@68 #19 m39)
init 18 to 1:
74 Block @1: []
init 19 to 21:
80 Block @21: []
texts \": \" \"s\"
main 41 of 92
",
);

// Locals are numbered in the order of the text, those of closed scopes and of catches too.
const LOCALS: (&str, &str) = (
    "class Oops extends Exception { }
class Main {
  public static void main(String[] args) {
    int a, b = 2;
    { int c = b; }
    { long c; c = b; }
    try { throw new Oops(); } catch (Oops o) { a = 1; } catch (Exception o) { a = 2; }
    int d = 3;
  }
}
",
    "m36 new @1 to 1: this@1 #18
75 Block @1: [76]
76 Eval @1: (direct@1 m6 l0)
m37 new @7 to 7: this@7 #19
78 Block @7: []
m38 main @12 to 79: args@17 #1[], a@21 int, b@23 int, c@29 int, c@36 long, o@55 #18, o@66 #3, d@75 int
79 Block @19: [80 81 82 84 87 94]
80 Declare @21 ask: l1
81 Eval @23 ask: (=@23 l2 2)
82 Block @27: [83]
83 Eval @29 ask: (=@29 l3 l2)
84 Block @34: [85 86]
85 Declare @36 ask: l4
86 Eval @38 ask: (=@39 l4 (to long l2))
87 Try @43 ask: 88 catch #18 l5@55 90 catch #3 l6@66 92 finally -
88 Block @44: [89]
89 Throw @45 ask: (new@46 #18 m36)
90 Block @57: [91]
91 Eval @58 ask: (=@59 l1 1)
92 Block @68: [93]
93 Eval @69 ask: (=@70 l1 2)
94 Eval @75 ask: (=@75 l7 3)
init 18 to 1:
74 Block @1: []
init 19 to 7:
77 Block @7: []
texts \": \"
main 38 of 95
",
);

// Constant texts are numbered by the first token of their expressions, wherever their bodies come.
const TEXTS: (&str, &str) = (
    "class Words {
  String say() { return \"late\"; }
  String first = \"early\";
  static final String KEY = \"k\" + 1;
  public static void main(String[] args) {
    String a = (\"one\" + \"!\") + args.length;
    String b = KEY + (\"k1\");
    if (b == \"late\") System.out.println(\": \" + a + KEY);
    System.out.print(\"one!\");
    System.out.println();
  }
}
",
    "m36 <fields> @1 to 1: this@1 #18
75 Block @1: [80]
80 Eval @13 ask: (=@13 (f1@13 l0) $2)
m37 new @1 to 1: this@1 #18
76 Block @1: [77]
77 Eval @1: (direct@1 m36 l0)
m38 say @4 to 11: this@4 #18
78 Block @7: [79]
79 Return @8 ask: $1
m39 main @29 to 95: args@34 #1[], a@38 #1, b@51 #1
82 Block @36: [83 84 85 87 88]
83 Eval @38 ask: (=@38 l1 (++@45 #1 int $4 (ArrayLength@48 l0)))
84 Eval @51 ask: (=@51 l2 $5)
85 If @59 ask reach 85: (==@62 l2 $1) 86 -
86 Print @65 ask: (++@74 #1 #1 (++@72 #1 #1 $0 l1) $3) #1 line@70
87 Print @78 ask: $4 #1@83
88 Print @87 ask: - void line@92
init 18 to 1:
74 Block @1: [81]
81 Eval @20 ask: (=@20 s2@20 $3)
texts \": \" \"late\" \"early\" \"k1\" \"one!\" \"k1k1\"
main 39 of 89
",
);

// An interface has no initializer, and an abstract method no body.
const ABSTRACT: (&str, &str) = (
    "interface Shape { int area(); }
abstract class Flat implements Shape {
  abstract int side();
  public int area() { return side() * this.side(); }
}
class Square extends Flat {
  int side() { return 4; }
  public static void main(String[] args) {
    Shape s = new Square();
    System.out.println(s.area());
  }
}
",
    "m37 new @11 to 11: this@11 #19
75 Block @11: []
m39 area @23 to 38: this@23 #19
76 Block @26: [77]
77 Return @27 ask: (*@31 (chosen@29 #19 m38 l0) (chosen@35 #19 m38 l0))
m40 new @41 to 41: this@41 #20
79 Block @41: [80]
80 Eval @41: (direct@41 m37 l0)
m41 side @46 to 53: this@46 #20
81 Block @49: [82]
82 Return @50 ask: 4
m42 main @57 to 86: args@62 #1[], s@66 #18
83 Block @64: [84 85]
84 Eval @66 ask: (=@66 l1 (new@68 #20 m40))
85 Print @73 ask: (chosen@82 #18 m36 l1) int line@78
init 19 to 11:
74 Block @11: []
init 20 to 41:
78 Block @41: []
texts \": \"
main 42 of 86
",
);

// The initializers of a class are two bodies, each with locals of its own.
const INITIALIZERS: (&str, &str) = (
    "class Count {
  static { int a = 1; }
  static int total = 2;
  int own;
  static { int b = total; { int c = b; } int d; }
  { int e = own; }
  { int f; }
  Count() { super(); own = 3; }
  private void add(int n) { int g = n; add(g); }
  public static void main(String[] args) { }
}
",
    "m36 <fields> @1 to 1: this@1 #18, e@40 int, f@47 int
75 Block @1: [84 86]
84 Block @38: [85]
85 Eval @40 ask: (=@40 l1 (f2@42 l0))
86 Block @45: [87]
87 Declare @47 ask: l2
m37 new @50 to 62: this@50 #18
89 Block @53: [88 90]
88 Eval @50: (direct@50 m36 l0)
90 Eval @58 ask: (=@59 (f2@58 l0) 3)
m38 add @65 to 81: this@65 #18, n@68 int, g@72 int
91 Block @70: [92 93]
92 Eval @72 ask: (=@72 l2 l1)
93 Eval @76 ask: (direct@77 m38 l0 l2)
m39 main @85 to 93: args@90 #1[]
94 Block @92: []
init 18 to 1: a@6 int, b@23 int, c@29 int, d@35 int
74 Block @1: [76 78 79]
76 Block @4: [77]
77 Eval @6 ask: (=@6 l0 1)
78 Eval @13 ask: (=@13 s1@13 2)
79 Block @21: [80 81 83]
80 Eval @23 ask: (=@23 l1 s1@25)
81 Block @27: [82]
82 Eval @29 ask: (=@29 l2 l1)
83 Declare @35 ask: l3
texts \": \"
main 39 of 95
",
);

// Blocks can't be asked about, but for empty statements.
const ASKABLE: (&str, &str) = (
    "class Ask {
  public static void main(String[] args) {
    ;
    int n;
    out: while (true) { { break out; } }
    try { ; } finally { ; }
    if (args == null) ; else { }
    n = 1;
    return;
  }
}
",
    "m36 new @1 to 1: this@1 #18
75 Block @1: []
m37 main @6 to 55: args@11 #1[], n@16 int
76 Block @13: [77 78 79 84 89 92 93]
77 Block @14 ask: []
78 Declare @16 ask: l1
79 Labelled @18 ask: 80
80 While @20 ask reach 79: true 81
81 Block @24: [82]
82 Block @25: [83]
83 Jump @26 ask: 79
84 Try @31 ask: 85 finally 87
85 Block @32: [86]
86 Block @33 ask: []
87 Block @36: [88]
88 Block @37 ask: []
89 If @39 ask reach 89: (==@42 l0 null) 90 91
90 Block @45 ask: []
91 Block @47: []
92 Eval @49 ask: (=@50 l1 1)
93 Return @53 ask: -
init 18 to 1:
74 Block @1: []
texts \": \"
main 37 of 94
",
);

// Jumps whose targets lie within the guarded part, and those that lie around it.
const TARGETS: (&str, &str) = (
    "class Inner {
  public static void main(String[] args) {
    int i = 0;
    if (i == 0) { try { throw new Error(); } catch (Error e) { } }
    if (i == 1) { while (true) { break; } }
    if (i == 2) out: { break out; }
    while (i < 3) { if (i == 4) return; i++; }
    do { do { if (i == 5) break; } while (i == 6); } while (i == 7);
    if (i == 8) i = 9; else return;
  }
}
",
    "m36 new @1 to 1: this@1 #18
75 Block @1: []
m37 main @6 to 132: args@11 #1[], i@15 int, e@38 #4
76 Block @13: [77 78 84 89 93 98 104]
77 Eval @15 ask: (=@15 l1 0)
78 If @19 ask reach 78: (==@22 l1 0) 79 -
79 Block @25: [80]
80 Try @26 ask: 81 catch #4 l2@38 83 finally -
81 Block @27: [82]
82 Throw @28 ask: (new@29 #4 m8)
83 Block @40: []
84 If @43 ask reach 84: (==@46 l1 1) 85 -
85 Block @49: [86]
86 While @50 ask reach 86: true 87
87 Block @54: [88]
88 Jump @55 ask: 86
89 If @59 ask reach 89: (==@62 l1 2) 90 -
90 Labelled @65 ask: 91
91 Block @67: [92]
92 Jump @68 ask: 90
93 While @72 ask reach 76: (<@75 l1 3) 94
94 Block @78: [95 97]
95 If @79 ask reach 76: (==@82 l1 4) 96 -
96 Return @85 ask: -
97 Eval @87 ask: (old +=@88 int int int l1 -)
98 Do @91 ask reach 98: 99 (==@115 l1 7)
99 Block @92: [100]
100 Do @93 ask reach 100: 101 (==@107 l1 6)
101 Block @94: [102]
102 If @95 ask reach 100: (==@98 l1 5) 103 -
103 Jump @101 ask: 100
104 If @119 ask reach 76: (==@122 l1 8) 105 106
105 Eval @125 ask: (=@126 l1 9)
106 Return @130 ask: -
init 18 to 1:
74 Block @1: []
texts \": \"
main 37 of 107
",
);

// Arrays: an initializer's own token, and the token before each element.
const ARRAYS: (&str, &str) = (
    "class Grid {
  int cells[] = { 4 }, size;
  public static void main(String args[]) {
    int[][] m = { { 1 }, { } }, k[] = new int[][][] { m };
    m[1] = new int[] { 2, 3 };
    m[0][0]++;
    new Grid().cells[0] = m[1][0];
  }
}
",
    "m36 <fields> @1 to 1: this@1 #18
75 Block @1: [78]
78 Eval @4 ask: (=@4 (f1@4 l0) (new@8 int[] of@8 4))
m37 new @1 to 1: this@1 #18
76 Block @1: [77]
77 Eval @1: (direct@1 m36 l0)
m38 main @17 to 99: args@20 #1[], m@30 int[][], k@41 int[][][]
79 Block @24: [80 81 82 83 84]
80 Eval @30 ask: (=@30 l1 (new@32 int[][] of@32@36 (new@33 int[] of@33 1) (new@37 int[] of)))
81 Eval @41 ask: (=@41 l2 (new@45 int[][][] of@53 l1))
82 Eval @57 ask: (=@61 (at@58 l1 1) (new@62 int[] of@66@68 2 3))
83 Eval @72 ask: (old +=@79 int int int (at@76 (at@73 l1 0) 0) -)
84 Eval @81 ask: (=@90 (at@87 (f1@86 (new@81 #18 m37)) 0) (at@95 (at@92 l1 1) 0))
init 18 to 1:
74 Block @1: []
texts \": \"
main 38 of 85
",
);

static ROWS: [(&str, &str); 12] = [
    FIELDS,
    JUMPS,
    GUARDS,
    LOOPS,
    CONSTRUCTORS,
    LOCALS,
    TEXTS,
    ABSTRACT,
    INITIALIZERS,
    ASKABLE,
    TARGETS,
    ARRAYS,
];

#[test]
fn a_program_has_the_statements_that_its_text_says(rt: HostRuntime) -> Result<(), Fail> {
    let tables = [
        ROWS.as_slice(),
        bodies::ROWS.as_slice(),
        kinds::ROWS.as_slice(),
        members::ROWS.as_slice(),
    ];
    for (text, wanted) in tables.iter().copied().flatten() {
        let program = read(rt.alloc(), text).ok_or("no program")?;
        let seen = listed(rt.alloc(), &program)?;
        assert_eq!(rt; seen.as_str(), *wanted);
    }
    Ok(())
}
