//! What the expressions of a main become: constants already of the type that is wanted, conversions exactly where a type changes,
//! the methods that calls mean, and assignments with the type in which they are done.

use crate::listed::main_shown;
use crate::source::{joined, read};
use std::test::Fail;

// The classes 18 A, 19 B, 20 I and 21 Main: the methods 36 A(), 37 B(), 38 B(int), 39 go, 40 Main(), 41 f(int), 42 f(long),
// 43 g(Object), 44 g(String) and 45 main; the fields 1 n, 2 made, 3 total and 4 STEP.
const FRONT: &str = "class A { int n; static int made; }
class B extends A { B() { } B(int k) { } }
interface I { void go(); }
class Main {
  static long total;
  static final int STEP = 3;
  static int f(int x) { return x; }
  static long f(long x) { return x; }
  static Object g(Object o) { return o; }
  static String g(String s) { return s; }
  public static void main(String[] args) {
";

static ROWS: [(&str, &str); 25] = [
    ("int x = 2 + 3 * 4;", "Eval: (= l1 14)\n"),
    (
        "long x = 5; x = 'a';",
        "Eval: (= l1 5L)\nEval: (= l1 97L)\n",
    ),
    (
        "byte b = 7; b += 1000; b = 'c';",
        "Eval: (= l1 7b)\nEval: (+= byte int int l1 1000)\nEval: (= l1 99b)\n",
    ),
    (
        "int i = 1; long l = i; l = i + 2L; l = 1 + l;",
        "Eval: (= l1 1)
Eval: (= l2 (to long l1))
Eval: (= l2 (+ (to long l1) 2L))
Eval: (= l2 (+ 1L l2))
",
    ),
    (
        "char c = 'a'; int i = c + 1; c++; i = -c; i = +i;",
        "Eval: (= l1 97c)
Eval: (= l2 (+ (to int l1) 1))
Eval: (old += char int int l1 -)
Eval: (= l2 (- (to int l1)))
Eval: (= l2 (+ l2))
",
    ),
    (
        "int i = 1; long l = i << 2L; l = l << i; i <<= 2L; i >>>= 'b';",
        "Eval: (= l1 1)
Eval: (= l2 (to long (<< l1 2L)))
Eval: (= l2 (<< l2 l1))
Eval: (<<= int long int l1 2L)
Eval: (>>>= int char int l1 98c)
",
    ),
    (
        "byte b = 1; short s = 2; boolean t = args == null; int i = t ? b : s; b = t ? b : 5; char c = t ? 'x' : 5;
long l = t ? b : 5L;",
        "Eval: (= l1 1b)
Eval: (= l2 2s)
Eval: (= l3 (== l0 null))
Eval: (= l4 (to int (? l3 (to short l1) l2)))
Eval: (= l1 (? l3 l1 5b))
Eval: (= l5 (? l3 120c 5c))
Eval: (= l6 (? l3 (to long l1) 5L))
",
    ),
    (
        "boolean t = args == null; t = t && !t || t; t &= true; t = true && t;",
        "Eval: (= l1 (== l0 null))
Eval: (= l1 (|| (&& l1 (! l1) -) - l1))
Eval: (&= boolean boolean boolean l1 true)
Eval: (= l1 (&& true l1 -))
",
    ),
    (
        "String s = \"a\" + 1 + 'c' + true; s += 1; s = s + null + args; s = 1 + 2 + s;",
        "Eval: (= l1 $1)
Eval: (+= #1 int text l1 1)
Eval: (= l1 (++ #1 #1[] (++ #1 null l1 null) l0))
Eval: (= l1 (++ int #1 3 l1))
",
    ),
    (
        "Object o = \"a\"; o += \"b\";",
        "Eval: (= l1 $1)\nEval: (+= #0 #1 text l1 $2)\n",
    ),
    (
        "byte b = 1; f(b); f(1); f(1L); f('c'); g(null); g(\"a\"); g(args);",
        "Eval: (= l1 1b)
Eval: (static m41 - (to int l1))
Eval: (static m41 - 1)
Eval: (static m42 - 1L)
Eval: (static m41 - 99)
Eval: (static m44 - null)
Eval: (static m44 - $1)
Eval: (static m43 - l0)
",
    ),
    (
        "long l = 1; l = Math.max(1, l); int i = Math.abs(-3); String s = String.valueOf('c');
s = s.substring(1).toString(); i = s.length(); Object o = s; boolean t = s.equals(o); t = o.equals(s);
i = Integer.parseInt(s);",
        "Eval: (= l1 1L)
Eval: (= l1 (Max 1L l1))
Eval: (= l2 (Abs -3))
Eval: (= l3 (ValueOf 99c))
Eval: (= l3 (Itself (PartFrom l3 1)))
Eval: (= l2 (Length l3))
Eval: (= l4 l3)
Eval: (= l5 (Same l3 l4))
Eval: (= l5 (chosen #0 m1 l4 l3))
Eval: (= l2 (ParseInt l3))
",
    ),
    (
        "byte b = 1; System.out.println(b); System.out.print('c'); System.out.println(1L + b);
System.out.print(args == null); System.out.println(\"a\"); Object o = null; System.out.println(o);",
        "Eval: (= l1 1b)
Print: (to int l1) int line
Print: 99c char
Print: (+ 1L (to long l1)) long line
Print: (== l0 null) boolean
Print: $1 #1 line
Eval: (= l2 null)
Print: l2 #0 line
",
    ),
    (
        "long l = 1; int i = (int) l; i = (int) i; byte b = (byte) 300; Object o = (Object) args;
String[] t = (String[]) o; boolean y = o instanceof A; y = (A) o == null;",
        "Eval: (= l1 1L)
Eval: (= l2 (to int l1))
Eval: (= l2 l2)
Eval: (= l3 44b)
Eval: (= l4 (cast #0 l0))
Eval: (= l5 (cast #1[] l4))
Eval: (= l6 (is #18 l4))
Eval: (= l6 (== (cast #18 l4) null))
",
    ),
    (
        "int[] xs = { 1, 'a', 2 }; int[][] ys = new int[3][]; long[] zs = new long['c']; zs[0] = xs[1];
xs[xs.length - 1]++; ys[0] = new int[] { }; Object[] os = { \"a\", xs };",
        "Eval: (= l1 (new int[] of 1 97 2))
Eval: (= l2 (new int[][] by 3))
Eval: (= l3 (new long[] by 99))
Eval: (= (at l3 0) (to long (at l1 1)))
Eval: (old += int int int (at l1 (- (ArrayLength l1) 1)) -)
Eval: (= (at l2 0) (new int[] of))
Eval: (= l4 (new #0[] of $1 l1))
",
    ),
    (
        "final int K = STEP * 2; int x = K + 1; x = Main.STEP; x = Integer.MAX_VALUE + 1; x = 1 / 0;
boolean t = \"a\" + \"b\" == \"ab\"; final int y; x = true ? 1 : 2; final String S = null; String u = S;",
        "Eval: (= l1 6)
Eval: (= l2 7)
Eval: (= l2 3)
Eval: (= l2 -2147483648)
Eval: (= l2 (/ 1 0))
Eval: (= l3 true)
Declare: l4
Eval: (= l2 1)
Eval: (= l5 null)
Eval: (= l6 l5)
",
    ),
    (
        "total++; Main.total = f(1); A a = new B(); a.n = 1; a.n += STEP; A.made = a.n; new B(2); new Object();
int i = i = 3;",
        "Eval: (old += long int long s3 -)
Eval: (= s3 (to long (static m41 - 1)))
Eval: (= l1 (new #19 m37))
Eval: (= (f1 l1) 1)
Eval: (+= int int int (f1 l1) 3)
Eval: (= s2 (f1 l1))
Eval: (new #19 m38 2)
Eval: (new #0 m-)
Eval: (= l2 (= l2 3))
",
    ),
    (
        "long l = 1; boolean t = l > 'a'; t = 1 == l; int i = 1; t = i != l; t = (i | 1) == 3;",
        "Eval: (= l1 1L)
Eval: (= l2 (> l1 97L))
Eval: (= l2 (== 1L l1))
Eval: (= l3 1)
Eval: (= l2 (!= (to long l3) l1))
Eval: (= l2 (== (| l3 1) 3))
",
    ),
    (
        "byte b = 1; b *= 2L; short s = 1; s -= b; char c = 'a'; c >>= 1; long l = 1; l ^= c; --l; int i = 0; i |= b;",
        "Eval: (= l1 1b)
Eval: (*= byte long long l1 2L)
Eval: (= l2 1s)
Eval: (-= short byte int l2 l1)
Eval: (= l3 97c)
Eval: (>>= char int int l3 1)
Eval: (= l4 1L)
Eval: (^= long char long l4 l3)
Eval: (-= long int long l4 -)
Eval: (= l5 0)
Eval: (|= int byte int l5 l1)
",
    ),
    (
        "boolean t = args == null; A a = t ? new B() : null; Object o = t ? \"a\" : a; I i = null; i.go();
o = i.toString(); o = args.length + o.toString();",
        "Eval: (= l1 (== l0 null))
Eval: (= l2 (? l1 (new #19 m37) null))
Eval: (= l3 (? l1 $1 l2))
Eval: (= l4 null)
Eval: (chosen #20 m39 l4)
Eval: (= l3 (chosen #20 m0 l4))
Eval: (= l3 (++ int #1 (ArrayLength l0) (chosen #0 m0 l3)))
",
    ),
    (
        "boolean t = args == null; byte b = 1; short s = 2; int i = t ? (byte) 1 : 'a'; b = t ? 1 : b;
i = t ? s : 70000; System.out.println(t ? 1 : 'a'); System.out.println(true ? 1 : 'a'); i = true ? b : 5;",
        "Eval: (= l1 (== l0 null))
Eval: (= l2 1b)
Eval: (= l3 2s)
Eval: (= l4 (? l1 1 97))
Eval: (= l2 (? l1 1b l2))
Eval: (= l4 (? l1 (to int l3) 70000))
Print: (? l1 1c 97c) char line
Print: 1c char line
Eval: (= l4 (to int (? true l2 5b)))
",
    ),
    (
        "int i = 1 << 33; i = -7 % 3; byte b = (byte) 200; char c = (char) 97; boolean t = false && 1 / 0 == 1;
String s = \"\" + 'c' + 1L + (short) 2; s = (String) s; Object o = (Object) \"a\"; final long L = 5; b = (byte) L;
final byte B = 5; c = B; final int D = 1, E = D + 1; i = E; t = \"a\" != \"b\";",
        "Eval: (= l1 2)
Eval: (= l1 -1)
Eval: (= l2 -56b)
Eval: (= l3 97c)
Eval: (= l4 (&& false (== (/ 1 0) 1) -))
Eval: (= l5 $1)
Eval: (= l5 (cast #1 l5))
Eval: (= l6 (cast #0 $2))
Eval: (= l7 5L)
Eval: (= l2 5b)
Eval: (= l8 5b)
Eval: (= l3 5c)
Eval: (= l9 1)
Eval: (= l10 2)
Eval: (= l1 2)
Eval: (= l4 true)
",
    ),
    (
        "Object o = args; String s = o.toString(); boolean t = args.equals(s); s = args.toString(); t = \"a\".equals(null);
Exception e = new Error() == null ? null : new RuntimeException(\"m\"); s = e.getMessage() + e.toString(); t = e.equals(o);
System.out.println(e);",
        "Eval: (= l1 l0)
Eval: (= l2 (chosen #0 m0 l1))
Eval: (= l3 (chosen #1[] m1 l0 l2))
Eval: (= l2 (chosen #1[] m0 l0))
Eval: (= l3 (Same $1 null))
Eval: (= l4 (? (== (new #4 m8) null) null (new #5 m11 $2)))
Eval: (= l2 (++ #1 #1 (chosen #3 m4 l4) (chosen #3 m5 l4)))
Eval: (= l3 (chosen #3 m1 l4 l1))
Print: l4 #3 line
",
    ),
    (
        "B b = new B(); b.n = 1; B.made = 2; A a = b; int i = b.n + B.made; boolean t = a == b; t = a instanceof B;",
        "Eval: (= l1 (new #19 m37))
Eval: (= (f1 l1) 1)
Eval: (= s2 2)
Eval: (= l2 l1)
Eval: (= l3 (+ (f1 l1) s2))
Eval: (= l4 (== l2 l1))
Eval: (= l4 (is #19 l2))
",
    ),
    (
        "int x = -2147483648 - 1; char c = true ? 'a' : 1; int y = true ? 'a' : -1; boolean t = \"a\" + 12 == \"a12\";
byte b = 'a'; b = -128; y = 'a'; final byte SEVEN = 7; c = SEVEN; String s = \"a\";",
        "Eval: (= l1 2147483647)
Eval: (= l2 97c)
Eval: (= l3 97)
Eval: (= l4 true)
Eval: (= l5 97b)
Eval: (= l5 -128b)
Eval: (= l3 97)
Eval: (= l6 7b)
Eval: (= l2 7c)
Eval: (= l7 $1)
",
    ),
];

// The classes 18 A, 19 B, 20 I, 21 J, 22 C and 23 Main. The methods of A are 36 A(), 37 A(int), 38 f(int, long), 39 f(long, int),
// 40 g(long), 41 g(int), 42 h(Object), 43 h(String), 44 k(String), 45 k(B), 46 p, 47 q, 48 s and 49 v; 50 is B(), 51 the q of B; 52 and
// 53 the r and s of I; 54 and 55 the r and t of J; 56 is C().
const WORLD: &str = "class A { A() { } A(int n) { }
  void f(int a, long b) { } void f(long a, int b) { } void g(long a) { } void g(int a) { }
  void h(Object a) { } void h(String a) { } void k(String a) { } void k(B a) { }
  private int p() { return 1; } Object q() { return null; } public int s() { return 1; } static void v(int a) { } }
class B extends A { String q() { return null; } }
interface I { Object r(); int s(); }
interface J extends I { String r(); int t(); }
abstract class C extends B implements J { }
class Main {
  public static void main(String[] args) {
";

// What calls mean (JLS 15.12.2). Those that mean nothing, or no one method, are rows of tools/checks.
static CHOICES: [(&str, &str); 3] = [
    (
        "A a = null; C c = null; long l = 1; byte y = 1; char u = 'a'; a.f(1, l); c.f(l, y); a.g(1); a.g(u); a.g(l);
a.h(null); a.h(\"\"); a.h(args); a.k(c);",
        "Eval: (= l1 null)
Eval: (= l2 null)
Eval: (= l3 1L)
Eval: (= l4 1b)
Eval: (= l5 97c)
Eval: (chosen #18 m38 l1 1 l3)
Eval: (chosen #22 m39 l2 l3 (to int l4))
Eval: (chosen #18 m41 l1 1)
Eval: (chosen #18 m41 l1 (to int l5))
Eval: (chosen #18 m40 l1 l3)
Eval: (chosen #18 m43 l1 null)
Eval: (chosen #18 m43 l1 $1)
Eval: (chosen #18 m42 l1 l0)
Eval: (chosen #18 m45 l1 l2)
",
    ),
    (
        "A a = null; B b = null; C c = null; I i = null; J j = null; a.q(); b.q(); c.q(); i.r(); j.r(); c.r(); c.s(); j.s(); c.t();",
        "Eval: (= l1 null)
Eval: (= l2 null)
Eval: (= l3 null)
Eval: (= l4 null)
Eval: (= l5 null)
Eval: (chosen #18 m47 l1)
Eval: (chosen #19 m51 l2)
Eval: (chosen #22 m51 l3)
Eval: (chosen #20 m52 l4)
Eval: (chosen #21 m54 l5)
Eval: (chosen #22 m54 l3)
Eval: (chosen #22 m48 l3)
Eval: (chosen #21 m53 l5)
Eval: (chosen #22 m55 l3)
",
    ),
    (
        "byte y = 1; new A(y); new B(); C.v(1); new Exception(\"m\"); new RuntimeException().toString(); J j = null; j.equals(\"m\");",
        "Eval: (= l1 1b)
Eval: (new #18 m37 (to int l1))
Eval: (new #19 m50)
Eval: (static m49 - 1)
Eval: (new #3 m7 $1)
Eval: (chosen #5 m5 (new #5 m10))
Eval: (= l2 null)
Eval: (chosen #21 m1 l2 $1)
",
    ),
];

#[test]
fn an_expression_becomes_the_forms_of_its_operators(rt: HostRuntime) -> Result<(), Fail> {
    for (front, rows) in [(FRONT, ROWS.as_slice()), (WORLD, CHOICES.as_slice())] {
        for (body, wanted) in rows {
            let text = joined(rt.alloc(), &[front, body, "\n  }\n}\n"])?;
            let program = read(rt.alloc(), text.as_str()).ok_or("no program")?;
            let seen = main_shown(rt.alloc(), &program)?;
            assert_eq!(rt; seen.as_str(), *wanted, "{body}");
        }
    }
    Ok(())
}
