//! Whole programs about classes: the methods that calls mean, static fields, constants, results and constructors. The places, numbers
//! and forms of their statements are written as in `programs.rt`.

// Methods chosen by class, private ones and those of `super`, which are not, and static ones; arguments brought to their parameters.
const CALLS: (&str, &str) = (
    "interface Named { String name(); }
interface Pet extends Named { void feed(int food, long time); }
abstract class Beast implements Pet {
  protected int weight;
  private void grow(int by) { weight += by; }
  public void feed(int food, long time) { grow(food); this.grow(-food); }
  static long count(Pet[] all) { return all.length; }
}
final class Cat extends Beast {
  private int weight;
  public String name() { return \"cat\"; }
  @Override public void feed(int food, long time) {
    super.feed(food * 2, time);
    weight = super.weight;
    super.weight--;
  }
}
public class Main {
  public static void main(final String[] args) throws Exception, Error {
    Pet p = new Cat();
    p.feed('a', 'b');
    Beast b = (Beast) p;
    b.feed(1, b.name().length());
    Cat.count(new Pet[] { p, b });
    System.out.print(p.toString() + b.equals(p) + p.name());
  }
}
",
    "m38 new @27 to 27: this@27 #20
75 Block @27: []
m39 grow @37 to 47: this@37 #20, by@40 int
76 Block @42: [77]
77 Eval @43 ask: (+=@44 int int int (f1@43 l0) l1)
m40 feed @50 to 72: this@50 #20, food@53 int, time@56 long
78 Block @58: [79 80]
79 Eval @59 ask: (direct@60 m39 l0 l1)
80 Eval @64 ask: (direct@67 m39 l0 (- l1))
m41 count @75 to 88: all@80 #19[]
81 Block @82: [82]
82 Return @83 ask: (to long (ArrayLength@86 l0))
m42 new @92 to 92: this@92 #21
84 Block @92: [85]
85 Eval @92: (direct@92 m38 l0)
m43 name @102 to 109: this@102 #21
86 Block @105: [87]
87 Return @106 ask: $1
m44 feed @114 to 145: this@114 #21, food@117 int, time@120 long
88 Block @122: [89 90 91]
89 Eval @123 ask: (direct@126 m40 l0 (*@128 l1 2) l2)
90 Eval @134 ask: (=@135 (f2@134 l0) (f1@138 l0))
91 Eval @140 ask: (old -=@143 int int int (f1@142 l0) -)
m45 new @149 to 149: this@149 #22
93 Block @149: []
m46 main @154 to 250: args@160 #1[], p@168 #19, b@185 #20
94 Block @166: [95 96 97 98 99 100]
95 Eval @168 ask: (=@168 l1 (new@170 #21 m42))
96 Eval @175 ask: (chosen@178 #19 m37 l1 97 98L)
97 Eval @185 ask: (=@185 l2 (cast@187 #20 l1))
98 Eval @192 ask: (chosen@195 #20 m40 l2 1 (to long (Length@205 (chosen@201 #20 m36 l2))))
99 Eval @209 ask: (static@212 m41 - (new@213 #19[] of@217@219 l1 l2))
100 Print @224 ask: (++@242 #1 #1 (++@235 #1 boolean (chosen@233 #19 m0 l1) (chosen@239 #20 m1 l2 l1)) (chosen@246 #19 m36 l1)) #1@229
init 20 to 27:
74 Block @27: []
init 21 to 92:
83 Block @92: []
init 22 to 149:
92 Block @149: []
texts \": \" \"cat\"
main 46 of 101
",
);

// Methods of one signature from several supertypes, a private one that hides another, fields that hide others, and printed references.
const MEMBERS: (&str, &str) = (
    "interface Shape { Object copy(); void draw(); }
interface Round extends Shape { Round copy(); }
interface Drawn { void draw(); }
abstract class Disc implements Drawn, Round {
  static Object last;
  void both() { copy().copy(); draw(); }
}
class Ball extends Disc {
  static String last = \"ball\";
  public Ball copy() { return this; }
  public void draw() { System.out.println(Disc.last = last); }
  private void both() { super.both(); }
  void all(Disc d) { both(); d.both(); ((Ball) d).both(); copy().copy(); }
  public static void main(String[] args) {
    final int none;
    none = args.length;
    Round r = new Ball();
    System.out.println(new Object());
    System.out.print(args);
    System.out.println(r.copy());
    new Ball().all((Disc) r);
    System.out.println(new int[none][2]);
  }
}
",
    "m40 new @36 to 36: this@36 #21
75 Block @36: []
m41 both @47 to 63: this@47 #21
76 Block @50: [77 78]
77 Eval @51 ask: (chosen@56 #19 m38 (chosen@52 #21 m38 l0))
78 Eval @59 ask: (chosen@60 #21 m37 l0)
m42 new @66 to 66: this@66 #22
80 Block @66: [81]
81 Eval @66: (direct@66 m40 l0)
m43 copy @78 to 85: this@78 #22
83 Block @81: [84]
84 Return @82 ask: l0
m44 draw @88 to 105: this@88 #22
85 Block @91: [86]
86 Print @92 ask: (=@101 s1@100 s2@102) #0 line@97
m45 both @108 to 118: this@108 #22
87 Block @111: [88]
88 Eval @112 ask: (direct@115 m41 l0)
m46 all @120 to 155: this@120 #22, d@123 #21
89 Block @125: [90 91 92 93]
90 Eval @126 ask: (direct@127 m45 l0)
91 Eval @130 ask: (chosen@133 #21 m41 l1)
92 Eval @136 ask: (direct@144 m45 (cast@137 #22 l1))
93 Eval @147 ask: (chosen@152 #22 m43 (chosen@148 #22 m43 l0))
m47 main @159 to 248: args@164 #1[], none@169 int, r@178 #19
94 Block @166: [95 96 97 98 99 100 101 102]
95 Declare @169 ask: l1
96 Eval @171 ask: (=@172 l1 (ArrayLength@175 l0))
97 Eval @178 ask: (=@178 l2 (new@180 #22 m42))
98 Print @185 ask: (new@191 #0 m-) #0 line@190
99 Print @197 ask: l0 #1[]@202
100 Print @206 ask: (chosen@215 #19 m38 l2) #19 line@211
101 Eval @219 ask: (chosen@225 #22 m46 (new@219 #22 m42) (cast@226 #21 l2))
102 Print @232 ask: (new@238 int[][] by l1 2) int[][] line@237
init 21 to 36:
74 Block @36: []
init 22 to 66:
79 Block @66: [82]
82 Eval @72 ask: (=@72 s2@72 $1)
texts \": \" \"ball\"
main 47 of 103
",
);

// Static fields and constants of a class that is declared later. The first `main` in the text is the main.
const STATICS: (&str, &str) = (
    "class Sums extends Limits {
  static int sum = start(), last;
  static { Sums.last = Limits.steps[0]; }
  static int start() { return sum--; }
  public static void main(String[] args) {
    Sums.steps[1] += LOW;
    long x = Sums.HIGH + Limits.WIDE;
    sum = --last + steps.length;
    new Sums().kept++;
  }
}
;
class Limits {
  static final byte LOW = -1;
  static final long HIGH = LOW + 3, WIDE = HIGH * 'a';
  static short[] steps = { LOW, 'b', (short) 70000 }, none;
  final char mark = 65;
  char kept = mark, read = this.mark;
  ;
  long first = kept;
  public static void main(String[] args) { }
}
",
    "m36 new @1 to 1: this@1 #18
75 Block @1: [76]
76 Eval @1: (direct@1 m40 l0)
m37 start @31 to 39:
80 Block @34: [81]
81 Return @35 ask: (old -=@37 int int int s1@36 -)
m38 main @43 to 88: args@48 #1[], x@61 long
82 Block @50: [83 84 85 86]
83 Eval @51 ask: (+=@57 short byte int (at@54 s6@53 1) -1b)
84 Eval @61 ask: (=@61 l1 196L)
85 Eval @71 ask: (=@72 s1@71 (+@75 (-=@73 int int int s2@74 -) (ArrayLength@78 s6@76)))
86 Eval @80 ask: (old +=@86 char int int (f9@85 (new@80 #18 m36)) -)
m39 <fields> @92 to 92: this@92 #19
88 Block @92: [95 96 97 98]
95 Eval @138 ask: (=@138 (f8@138 l0) 65c)
96 Eval @143 ask: (=@143 (f9@143 l0) 65c)
97 Eval @147 ask: (=@147 (f10@147 l0) (f8@151 l0))
98 Eval @155 ask: (=@155 (f11@155 l0) (to long (f9@157 l0)))
m40 new @92 to 92: this@92 #19
89 Block @92: [90]
90 Eval @92: (direct@92 m39 l0)
m41 main @162 to 170: args@167 #1[]
99 Block @169: []
init 18 to 1:
74 Block @1: [77 78]
77 Eval @7 ask: (=@7 s1@7 (static@10 m37 -))
78 Block @16: [79]
79 Eval @17 ask: (=@20 s2@19 (to int (at@24 s6@23 0)))
init 19 to 92:
87 Block @92: [91 92 93 94]
91 Eval @97 ask: (=@97 s3@97 -1b)
92 Eval @105 ask: (=@105 s4@105 2L)
93 Eval @111 ask: (=@111 s5@111 194L)
94 Eval @121 ask: (=@121 s6@121 (new@123 short[] of@123@125@127 -1s 98s 4464s))
texts \": \"
main 38 of 100
",
);

// Results brought to their types, constructors that are chosen, and tests within initializers and constructors.
const RESULTS: (&str, &str) = (
    "class Pair {
  long a;
  Pair(char c) { this(c, c); }
  Pair(int n, long a) { this.a = a; if (n < 0) return; this.a = n; }
  Pair self() { return this; }
  byte one() { return 1; }
  char two() { return 98; }
  long three() { return (two()); }
  short four() { return one(); }
  long five(boolean b) { return b ? 'a' : 2; }
  int[] none() { return null; }
}
class Twin extends Pair {
  static int made = 3;
  static { for (int i = 0; i < made; i++) { if (i == 2) throw new Error(\"two\"); } }
  { if (made > 3) throw new RuntimeException(); }
  { while (true) if (made > 4) break; }
  Twin() { super('a'); }
  Twin(byte b) { super(b, b); made++; }
  Pair self() { return super.self().self(); }
  public static void main(String[] args) { new Twin((byte) 1).self().a = new Twin().four(); }
}
",
    "m36 new @6 to 19: this@6 #18, c@9 char
75 Block @11: [76]
76 Eval @12 ask: (direct@13 m37 l0 (to int l1) (to long l1))
m37 new @20 to 49: this@20 #18, n@23 int, a@26 long
77 Block @28: [78 79 81]
78 Eval @29 ask: (=@32 (f1@31 l0) l2)
79 If @35 ask reach 77: (<@38 l1 0) 80 -
80 Return @41 ask: -
81 Eval @43 ask: (=@46 (f1@45 l0) (to long l1))
m38 self @51 to 58: this@51 #18
82 Block @54: [83]
83 Return @55 ask: l0
m39 one @60 to 67: this@60 #18
84 Block @63: [85]
85 Return @64 ask: 1b
m40 two @69 to 76: this@69 #18
86 Block @72: [87]
87 Return @73 ask: 98c
m41 three @78 to 89: this@78 #18
88 Block @81: [89]
89 Return @82 ask: (to long (chosen@85 #18 m40 l0))
m42 four @91 to 100: this@91 #18
90 Block @94: [91]
91 Return @95 ask: (to short (chosen@97 #18 m39 l0))
m43 five @102 to 115: this@102 #18, b@105 boolean
92 Block @107: [93]
93 Return @108 ask: (to long (?@110 l1 97c 2c))
m44 none @119 to 126: this@119 #18
94 Block @122: [95]
95 Return @123 ask: null
m45 <fields> @129 to 129: this@129 #19
97 Block @129: [106 109]
106 Block @171: [107]
107 If @172 ask reach 97: (>@175 s2@174 3) 108 -
108 Throw @178 ask: (new@179 #5 m10)
109 Block @185: [110]
110 While @186 ask reach 110: true 111
111 If @190 ask reach 110: (>@193 s2@192 4) 112 -
112 Jump @196 ask: 110
m46 new @199 to 208: this@199 #19
114 Block @202: [115 113]
115 Eval @203 ask: (direct@204 m36 l0 97c)
113 Eval @199: (direct@199 m45 l0)
m47 new @209 to 225: this@209 #19, b@212 byte
117 Block @214: [118 116 119]
118 Eval @215 ask: (direct@216 m37 l0 (to int l1) (to long l1))
116 Eval @209: (direct@209 m45 l0)
119 Eval @222 ask: (old +=@223 int int int s2@222 -)
m48 self @227 to 242: this@227 #19
120 Block @230: [121]
121 Return @231 ask: (chosen@239 #18 m38 (direct@235 m38 l0))
m49 main @246 to 278: args@251 #1[]
122 Block @253: [123]
123 Eval @254 ask: (=@268 (f1@267 (chosen@264 #19 m48 (new@254 #19 m47 1b))) (to long (chosen@275 #19 m42 (new@269 #19 m46))))
init 18 to 1:
74 Block @1: []
init 19 to 129: i@144 int
96 Block @129: [98 99]
98 Eval @135 ask: (=@135 s2@135 3)
99 Block @140: [100]
100 For @141 ask reach 96: [101] (<@149 l0 s2@150) [102] 103
101 Eval @144 ask: (=@144 l0 0)
102 Eval @152 ask: (old +=@153 int int int l0 -)
103 Block @155: [104]
104 If @156 ask reach 96: (==@159 l0 2) 105 -
105 Throw @162 ask: (new@163 #4 m9 $1)
texts \": \" \"two\"
main 49 of 124
",
);

pub static ROWS: [(&str, &str); 4] = [CALLS, MEMBERS, STATICS, RESULTS];
