//! Whole programs about types, constants and names. The places, numbers and forms of their statements are written as in `programs.rt`.

// The types of `?:`, shown by the methods that are chosen for them, and indices of each type.
const KINDS: (&str, &str) = (
    "class Kinds {
  static String of(char c) { return \"char\"; }
  static String of(long n) { return \"long\"; }
  static String of(Object o) { return \"object\"; }
  static String of(Object[] all) { return \"all\"; }
  static void choose(boolean t, byte b, short s, char c, int[] xs, String[][] m, Exception e) {
    int i = t ? b : s;
    i = t ? c : s;
    c = t ? c : 65;
    System.out.print(t ? i : 'x');
    System.out.println(t ? null : \"x\");
    of(b); of(c); of(i); of(\"a\"); of(xs); of(m); of(null);
    of(t ? xs : m); of(t ? m : null); of(t ? 'y' : s);
    Object[] all = m;
    xs[b] = xs[c] + m[s].length;
    of(t ? \"z\" : e).length();
    (t ? new ArithmeticException() : e == null ? null : new NumberFormatException()).getMessage();
    throw t ? e : null;
  }
  public static void main(String[] args) { }
}
",
    "m36 new @1 to 1: this@1 #18
75 Block @1: []
m37 of @5 to 14: c@8 char
76 Block @10: [77]
77 Return @11 ask: $1
m38 of @17 to 26: n@20 long
78 Block @22: [79]
79 Return @23 ask: $2
m39 of @29 to 38: o@32 #0
80 Block @34: [81]
81 Return @35 ask: $3
m40 of @41 to 52: all@46 #0[]
82 Block @48: [83]
83 Return @49 ask: $4
m41 choose @55 to 266: t@58 boolean, b@61 byte, s@64 short, c@67 char, xs@72 int[], m@79 #1[][], e@82 #3, i@86 int, all@201 #0[]
84 Block @84: [85 86 87 88 89 90 91 92 93 94 95 96 97 98 99 100 101 102 103 104]
85 Eval @86 ask: (=@86 l7 (to int (?@89 l0 (to short l1) l2)))
86 Eval @94 ask: (=@95 l7 (?@97 l0 (to int l3) (to int l2)))
87 Eval @102 ask: (=@103 l3 (?@105 l0 l3 65c))
88 Print @110 ask: (?@117 l0 l7 120) int@115
89 Print @123 ask: (?@130 l0 null $5) #1 line@128
90 Eval @136 ask: (static@137 m38 - (to long l1))
91 Eval @141 ask: (static@142 m37 - l3)
92 Eval @146 ask: (static@147 m38 - (to long l7))
93 Eval @151 ask: (static@152 m39 - $6)
94 Eval @156 ask: (static@157 m39 - l4)
95 Eval @161 ask: (static@162 m40 - l5)
96 Eval @166 ask: (static@167 m40 - null)
97 Eval @171 ask: (static@172 m39 - (?@174 l0 l4 l5))
98 Eval @180 ask: (static@181 m40 - (?@183 l0 l5 null))
99 Eval @189 ask: (static@190 m38 - (to long (?@192 l0 121 (to int l2))))
100 Eval @201 ask: (=@201 l8 l5)
101 Eval @205 ask: (=@209 (at@206 l4 (to int l1)) (+@214 (at@211 l4 (to int l3)) (ArrayLength@220 (at@216 l5 (to int l2)))))
102 Eval @222 ask: (Length@232 (static@223 m39 - (?@225 l0 $7 l6)))
103 Eval @235 ask: (chosen@256 #5 m4 (?@237 l0 (new@238 #6 m12) (?@246 (==@244 l6 null) null (new@249 #10 m20))))
104 Throw @259 ask: (?@261 l0 l6 null)
m42 main @270 to 278: args@275 #1[]
105 Block @277: []
init 18 to 1:
74 Block @1: []
texts \": \" \"char\" \"long\" \"object\" \"all\" \"x\" \"a\" \"z\"
main 42 of 106
",
);

// Constants that need one another, constants within larger expressions, casts one behind another, and parentheses.
const FIXED: (&str, &str) = (
    "class Fixed {
  static final int A = B + 1, B = 2, X = Fixed.Y, Y = X;
  final String own = (String) \"o\" + (char) 119 + 'n';
  static int f(final int p, Fixed o) {
    final int k = A * 10, late;
    final long big = k + 1L;
    late = k;
    int n = p + k + late;
    n = (int) big + Integer.MIN_VALUE / -1 + X;
    n = 0x80000000 >>> 31 + (k - k) - -2147483648;
    n = k == 30 ? k / 0 : k % (k - 31);
    String s = 'a' + 'b' + \"c\" + 'a' + 1L + o.own + 1 + 2;
    s = 1 + 2 + \"x\" + 1 + 2 + (s == null) + (\"a\" + \"b\" == \"ab\");
    byte b = (byte) -(k + 226);
    b = (byte) (int) b;
    long l = (short) -n;
    char c = (char) (byte) +l;
    return (n) - 1 + (n)++ - (int) -b;
  }
  public static void main(String[] args) { }
}
",
    "m36 <fields> @1 to 1: this@1 #18
75 Block @1: [82]
82 Eval @28 ask: (=@28 (f5@28 l0) $1)
m37 new @1 to 1: this@1 #18
76 Block @1: [77]
77 Eval @1: (direct@1 m36 l0)
m38 f @44 to 243: p@48 int, o@51 #18, k@56 int, late@62 int, big@66 long, n@77 int, s@135 #1, b@182 byte, l@205 long, c@214 char
83 Block @53: [84 85 86 87 88 89 90 91 92 93 94 95 96 97 98]
84 Eval @56 ask: (=@56 l2 30)
85 Declare @62 ask: l3
86 Eval @66 ask: (=@66 l4 31L)
87 Eval @72 ask: (=@73 l3 30)
88 Eval @77 ask: (=@77 l5 (+@82 (+@80 l0 30) l3))
89 Eval @85 ask: (=@86 l5 (+@98 -2147483617 s3@99))
90 Eval @101 ask: (=@102 l5 1)
91 Eval @116 ask: (=@117 l5 (?@121 true (/@123 30 0) 0))
92 Eval @135 ask: (=@135 l6 (++@152 #1 int (++@150 #1 int (++@146 #1 #1 $2 (f5@149 l1)) 1) 2))
93 Eval @155 ask: (=@156 l6 (++@172 #1 boolean (++@166 #1 boolean $3 (==@169 l6 null)) true))
94 Eval @182 ask: (=@182 l7 0b)
95 Eval @194 ask: (=@195 l7 (to byte (to int l7)))
96 Eval @205 ask: (=@205 l8 (to long (to short (- l5))))
97 Eval @214 ask: (=@214 l9 (to char (to byte (+ l8))))
98 Return @225 ask: (-@236 (+@231 (-@229 l5 1) (old +=@235 int int int l5 -)) (- (to int l7)))
m39 main @247 to 255: args@252 #1[]
99 Block @254: []
init 18 to 1:
74 Block @1: [78 79 80 81]
78 Eval @6 ask: (=@6 s1@6 3)
79 Eval @12 ask: (=@12 s2@12 2)
80 Eval @16 ask: (=@16 s3@16 s4@20)
81 Eval @22 ask: (=@22 s4@22 s3@24)
texts \": \" \"own\" \"195ca1\" \"3x12\"
main 39 of 100
",
);

// One name for a class, its methods, fields and locals, and scopes that end.
const NAMES: (&str, &str) = (
    "class Name extends Throwable {
  static int Name = new int[2].length;
  private Name next;
  private Name() { this.next = null; }
  Name(Name Name) { super(\"name\"); next = Name; Name = next.next; }
  static int Name(int Name) { return Name + Other.Name; }
  public String toString() { return super.toString() + super.equals(this); }
  boolean same(Name next) {
    same: { boolean same = next == this.next; if (same) break same; }
    { int same = 1; }
    return Name(1) > Name;
  }
  public static void main(String[] Other) {
    int[] Math = { , }, System;
    for (int i = 0, j; i < Math.length; new Name(), Name(i)) { int k = i; }
    for (Name i = null, j = i; ; ) { Name k = j; break; }
    Name = Other.length;
    ++(Name);
  }
}
class Other { static byte Name = 1; }
",
    "m36 new @22 to 32: this@22 #18
77 Block @25: [76 78]
76 Eval @22: (direct@22 m2 l0)
78 Eval @26 ask: (=@29 (f2@28 l0) null)
m37 new @33 to 54: this@33 #18, Name@36 #18
79 Block @38: [80 81 82]
80 Eval @39 ask: (direct@40 m3 l0 $1)
81 Eval @44 ask: (=@45 (f2@44 l0) l1)
82 Eval @48 ask: (=@49 l1 (f2@52 (f2@50 l0)))
m38 Name @57 to 70: Name@60 int
83 Block @62: [84]
84 Return @63 ask: (+@65 l0 (to int s3@68))
m39 toString @73 to 91: this@73 #18
85 Block @76: [86]
86 Return @77 ask: (++@83 #1 boolean (direct@81 m5 l0) (direct@87 m1 l0 l0))
m40 same @93 to 134: this@93 #18, next@96 #18, same@103 boolean, same@121 int
87 Block @98: [88 93 95]
88 Labelled @99 ask: 89
89 Block @101: [90 91]
90 Eval @103 ask: (=@103 l2 (==@106 l1 (f2@109 l0)))
91 If @111 ask reach 88: l2 92 -
92 Jump @115 ask: 88
93 Block @119: [94]
94 Eval @121 ask: (=@121 l3 1)
95 Return @126 ask: (>@131 (static@128 m38 - 1) s1@132)
m41 main @138 to 222: Other@143 #1[], Math@149 int[], System@155 int[], i@160 int, j@164 int, k@184 int, i@192 #18, j@196 #18, k@204 #18
96 Block @145: [97 98 99 106 112 113]
97 Eval @149 ask: (=@149 l1 (new@151 int[] of))
98 Declare @155 ask: l2
99 For @157 ask reach 99: [100 101] (<@167 l3 (ArrayLength@170 l1)) [102 103] 104
100 Eval @160 ask: (=@160 l3 0)
101 Declare @164 ask: l4
102 Eval @172 ask: (new@172 #18 m36)
103 Eval @177 ask: (static@178 m38 - l3)
104 Block @182: [105]
105 Eval @184 ask: (=@184 l5 l3)
106 For @189 ask: [107 108] - [] 109
107 Eval @192 ask: (=@192 l6 null)
108 Eval @196 ask: (=@196 l7 l6)
109 Block @202: [110 111]
110 Eval @204 ask: (=@204 l8 l7)
111 Jump @208 ask: 106
112 Eval @211 ask: (=@212 s1@211 (ArrayLength@215 l0))
113 Eval @217 ask: (+=@217 int int int s1@219 -)
m42 new @225 to 225: this@225 #19
115 Block @225: []
init 18 to 1:
74 Block @1: [75]
75 Eval @7 ask: (=@7 s1@7 (ArrayLength@15 (new@9 int[] by 2)))
init 19 to 225:
114 Block @225: [116]
116 Eval @229 ask: (=@229 s3@229 1b)
texts \": \" \"name\"
main 41 of 117
",
);

pub static ROWS: [(&str, &str); 3] = [KINDS, FIXED, NAMES];
