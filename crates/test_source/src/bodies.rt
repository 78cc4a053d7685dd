//! Whole programs about bodies: exceptions, conditions, texts, arrays, input and assignments. The places, numbers and forms of their
//! statements are written as in `programs.rt`.

// Nested `try`: what catches a `throw` in a catch, and jumps out of each part.
const CAUGHT: (&str, &str) = (
    "class Lost extends RuntimeException {
  final int at;
  Lost(String entity, int at) { super(entity); this.at = at; }
  public String getMessage() { return super.getMessage() + at; }
}
class Seek {
  static int in(int[] all, int key) {
    int i = 0;
    seek: try {
      for (;; ++i) {
        try {
          if (all[i] == key) return i;
          if (all[i] > key) break seek;
          if (all[i] < 0) continue;
          throw new Lost(\"not \" + key, i);
        } catch (NullPointerException e) {
          if (key == 1) throw e;
          if (key == 2) break;
        } catch (Lost e) {
          if (key == 3) throw null;
        } finally {
          if (key == 4) continue;
        }
      }
    } catch (Exception e) { i = e.getMessage().length(); }
    return i;
  }
  public static void main(String[] args) { in(null, args.length); }
}
",
    "m36 new @9 to 29: this@9 #18, entity@12 #1, at@15 int
75 Block @17: [76 77]
76 Eval @18 ask: (direct@19 m11 l0 l1)
77 Eval @23 ask: (=@26 (f1@25 l0) l2)
m37 getMessage @32 to 45: this@32 #18
78 Block @35: [79]
79 Return @36 ask: (++@42 #1 int (direct@40 m4 l0) (f1@43 l0))
m38 new @48 to 48: this@48 #19
81 Block @48: []
m39 in @52 to 204: all@57 int[], key@60 int, i@64 int, e@132 #16, e@156 #18, e@185 #3
82 Block @62: [83 84 112]
83 Eval @64 ask: (=@64 l2 0)
84 Labelled @68 ask: 85
85 Try @70 ask: 86 catch #3 l5@185 110 finally -
86 Block @71: [87]
87 For @72 ask: [] - [88] 89
88 Eval @76 ask: (+=@76 int int int l2 -)
89 Block @79: [90]
90 Try @80 ask: 91 catch #16 l3@132 99 catch #18 l4@156 104 finally 107
91 Block @81: [92 94 96 98]
92 If @82 ask reach 82: (==@88 (at@85 l0 l2) l1) 93 -
93 Return @91 ask: l2
94 If @94 ask reach 84: (>@100 (at@97 l0 l2) l1) 95 -
95 Jump @103 ask: 84
96 If @106 ask reach 89: (<@112 (at@109 l0 l2) 0) 97 -
97 Jump @115 ask: 89
98 Throw @117 ask: (new@118 #18 m36 (++@122 #1 int $1 l1) l2)
99 Block @134: [100 102]
100 If @135 ask reach 85: (==@138 l1 1) 101 -
101 Throw @141 ask: l3
102 If @144 ask reach 87: (==@147 l1 2) 103 -
103 Jump @150 ask: 87
104 Block @158: [105]
105 If @159 ask reach 85: (==@162 l1 3) 106 -
106 Throw @165 ask: null
107 Block @170: [108]
108 If @171 ask reach 89: (==@174 l1 4) 109 -
109 Jump @177 ask: 89
110 Block @187: [111]
111 Eval @188 ask: (=@189 l2 (Length@197 (chosen@193 #3 m4 l5)))
112 Return @201 ask: l2
m40 main @208 to 225: args@213 #1[]
113 Block @215: [114]
114 Eval @216 ask: (static@217 m39 - null (ArrayLength@222 l0))
init 18 to 1:
74 Block @1: []
init 19 to 48:
80 Block @48: []
texts \": \" \"not \"
main 40 of 115
",
);

// `&&`, `||` and `?:` in each place of a test, one within another.
const CONDITIONS: (&str, &str) = (
    "class Judge {
  static boolean is(int n) { return n > 0 == true; }
  static int pick(boolean a, boolean b, Object o) {
    if (a && b || is(1) && !a) return a ? 1 : b ? 2 : 3;
    else if (a = b) ;
    else if (a & !b ^ is(2) | b) { a = b != a; }
    while (is(a ? 1 : 2) && (b || a)) b = !b && a;
    do a = o == null; while (!(a || b));
    for (int i = 9; a ? i > 0 : b; i -= is(i) ? 1 : 2) if (o instanceof Judge && ((Judge) o).same()) break;
    return a || b ? 1 : 'a';
  }
  boolean same() { return this instanceof Object; }
  public static void main(String[] args) { pick(true, args == null, null); }
}
",
    "m36 new @1 to 1: this@1 #18
75 Block @1: []
m37 is @5 to 18: n@8 int
76 Block @10: [77]
77 Return @11 ask: (==@15 (>@13 l0 0) true)
m38 pick @21 to 184: a@24 boolean, b@27 boolean, o@30 #0, i@133 int
78 Block @32: [79 86 88 90 95]
79 If @33 ask reach 78: (||@38 (&&@36 l0 l1 -) - (&&@43 (static@40 m37 - 1) (! l0) -)) 80 81
80 Return @47 ask: (?@49 l0 1 (?@53 l1 2 3))
81 If @59 ask reach 81: (=@62 l0 l1) 82 83
82 Block @65 ask: []
83 If @67 ask reach 83: (|@78 (^@73 (&@70 l0 (! l1)) (static@75 m37 - 2)) l1) 84 -
84 Block @81: [85]
85 Eval @82 ask: (=@83 l0 (!=@85 l1 l0))
86 While @89 ask reach 86: (&&@99 (static@92 m37 - (?@94 l0 1 2)) (||@102 l1 - l0) -) 87
87 Eval @106 ask: (=@107 l1 (&&@110 (! l1) l0 -))
88 Do @113 ask reach 88: 89 (! (||@125 l0 - l1))
89 Eval @114 ask: (=@115 l0 (==@117 l2 null))
90 For @130 ask reach 90: [91] (?@138 l0 (>@140 l3 0) l1) [92] 93
91 Eval @133 ask: (=@133 l3 9)
92 Eval @145 ask: (-=@146 int int int l3 (?@151 (static@148 m37 - l3) 1 2))
93 If @156 ask reach 90: (&&@161 (is #18 l2) (chosen@170 #18 m39 (cast@163 #18 l2)) -) 94 -
94 Jump @173 ask: 90
95 Return @175 ask: (to int (?@179 (||@177 l0 - l1) 1c 97c))
m39 same @186 to 195: this@186 #18
96 Block @189: [97]
97 Return @190 ask: (is #0 l0)
m40 main @199 to 218: args@204 #1[]
98 Block @206: [99]
99 Eval @207 ask: (static@208 m38 - true (==@212 l0 null) null)
init 18 to 1:
74 Block @1: []
texts \": \"
main 40 of 100
",
);

// Texts joined with values of every kind, and what the library does with them.
const TEXTS: (&str, &str) = (
    "class Tag {
  String name = \"n\";
  static String all = \"\" + null;
  Tag(String name, char c) { this.name += name + c; }
  public String toString() { return \"<\" + name + '>'; }
  static String of(Object o, String[] s) {
    s[1] += o + \"-\" + 1 + 2L;
    all += s[0].charAt(1) + 1;
    return all + 'c' + (1 + 2) + (\"n\" + \"-\" + s.length);
  }
  public static void main(String[] args) {
    final String SEP = \">\";
    Object o = new Tag(SEP + 1, SEP.charAt(0));
    o += \"n\";
    System.out.println(o + SEP + args[0] + true);
    if (all.compareTo(\"<\") < 0 || all.isEmpty()) System.out.print(all.substring(1, 2) + Integer.toString(3));
    System.out.println('n');
    System.out.println(of(null, new String[2]).equals(\">1\"));
  }
}
",
    "m36 <fields> @1 to 1: this@1 #18
75 Block @1: [76]
76 Eval @4 ask: (=@4 (f1@4 l0) $1)
m37 new @16 to 33: this@16 #18, name@19 #1, c@22 char
79 Block @24: [78 80]
78 Eval @16: (direct@16 m36 l0)
80 Eval @25 ask: (+=@28 #1 #1 text (f1@27 l0) (++@30 #1 char l1 l2))
m38 toString @36 to 47: this@36 #18
81 Block @39: [82]
82 Return @40 ask: (++@44 #1 char (++@42 #1 #1 $3 (f1@43 l0)) 62c)
m39 of @50 to 109: o@53 #0, s@58 #1[]
83 Block @60: [84 85 86]
84 Eval @61 ask: (+=@65 #1 #1 text (at@62 l1 1) (++@71 #1 long (++@69 #1 int (++@67 #0 #1 l0 $4) 1) 2L))
85 Eval @74 ask: (+=@75 #1 int text s2@74 (+@85 (to int (CharAt@82 (at@77 l1 0) 1)) 1))
86 Return @88 ask: (++@98 #1 #1 (++@92 #1 int (++@90 #1 char s2@89 99c) 3) (++@103 #1 int $5 (ArrayLength@106 l1)))
m40 main @113 to 239: args@118 #1[], SEP@123 #1, o@128 #0
87 Block @120: [88 89 90 91 92 94 95]
88 Eval @123 ask: (=@123 l1 $6)
89 Eval @128 ask: (=@128 l2 (new@130 #18 m37 $7 (CharAt@140 $6 0)))
90 Eval @145 ask: (+=@146 #0 #1 text l2 $1)
91 Print @149 ask: (++@163 #1 boolean (++@158 #1 #1 (++@156 #0 #1 l2 $6) (at@160 l0 0)) true) #1 line@154
92 If @167 ask reach 92: (||@177 (<@175 (Compare@172 s2@169 $3) 0) - (IsEmpty@181 s2@178)) 93 -
93 Print @184 ask: (++@198 #1 #1 (Part@193 s2@190 1 2) (IntText@202 3)) #1@189
94 Print @207 ask: 110c char line@212
95 Print @216 ask: (Same@234 (static@223 m39 - null (new@226 #1[] by 2)) $7) boolean line@221
init 18 to 1:
74 Block @1: [77]
77 Eval @10 ask: (=@10 s2@10 (++@13 #1 null $2 null))
texts \": \" \"n\" \"\" \"<\" \"-\" \"n-\" \">\" \">1\"
main 40 of 96
",
);

// Arrays of arrays, elements of every kind, and places with assignments inside.
const ARRAYS: (&str, &str) = (
    "class Board {
  final int[][] cells = new int[2][3];
  Object[] kept = { null, new int[0], \"k\", new Board[] { this, }, };
  static int at(int cells[], int i) { return cells[i++] + cells[--i]; }
  static void fill(int n, long[][][] deep) {
    deep = new long[n + 1][n][];
    deep[n] = new long[][] { { n, 1 }, null, { }, new long['a'] };
    deep[0][n = 1][deep[n].length] /= deep.length;
    int[] row = { at(null, n), n = 2, n > 0 ? n : 'b' }, other = row;
    row[row[0]] = other[row[1] = 3]--;
    ++row[n];
  }
  public static void main(String[] args) {
    Board b = new Board();
    fill(b.cells[1].length, null);
    ((int[]) b.kept[1])[0] = b.cells[0][2] <<= 2;
  }
}
",
    "m36 <fields> @1 to 1: this@1 #18
75 Block @1: [78 79]
78 Eval @9 ask: (=@9 (f1@9 l0) (new@11 int[][] by 2 3))
79 Eval @23 ask: (=@23 (f2@23 l0) (new@25 #0[] of@25@27@33@35 null (new@28 int[] by 0) $1 (new@36 #18[] of@40 l0)))
m37 new @1 to 1: this@1 #18
76 Block @1: [77]
77 Eval @1: (direct@1 m36 l0)
m38 at @49 to 73: cells@52 int[], i@57 int
80 Block @59: [81]
81 Return @60 ask: (+@66 (at@62 l0 (old +=@64 int int int l1 -)) (at@68 l0 (-=@69 int int int l1 -)))
m39 fill @76 to 213: n@79 int, deep@88 long[][][], row@161 int[], other@184 int[]
82 Block @90: [83 84 85 86 87 88 89]
83 Eval @91 ask: (=@92 l1 (new@93 long[][][] by (+@97 l0 1) l0))
84 Eval @106 ask: (=@110 (at@107 l1 l0) (new@111 long[][] of@117@123@125@128 (new@118 long[] of@118@120 (to long l0) 1L) null (new@126 long[] of) (new@129 long[] by 97)))
85 Eval @136 ask: (/=@153 long int long (at@145 (at@140 (at@137 l1 0) (=@142 l0 1)) (ArrayLength@151 (at@147 l1 l0))) (ArrayLength@156 l1))
86 Eval @161 ask: (=@161 l2 (new@163 int[] of@163@170@174 (static@165 m38 - null l0) (=@172 l0 2) (?@178 (>@176 l0 0) l0 98)))
87 Eval @184 ask: (=@184 l3 l2)
88 Eval @188 ask: (=@195 (at@189 l2 (at@191 l2 0)) (old -=@205 int int int (at@197 l3 (=@202 (at@199 l2 1) 3)) -))
89 Eval @207 ask: (+=@207 int int int (at@209 l2 l0) -)
m40 main @217 to 276: args@222 #1[], b@226 #18
90 Block @224: [91 92 93]
91 Eval @226 ask: (=@226 l1 (new@228 #18 m37))
92 Eval @233 ask: (static@234 m39 - (ArrayLength@242 (at@238 (f1@237 l1) 1)) null)
93 Eval @247 ask: (=@263 (at@260 (cast@248 int[] (at@256 (f2@255 l1) 1)) 0) (<<=@273 int int int (at@270 (at@267 (f1@266 l1) 0) 2) 2))
init 18 to 1:
74 Block @1: []
texts \": \" \"k\"
main 40 of 94
",
);

// A loop over the input, with numbers and the library.
const INPUT: (&str, &str) = (
    "class Adder {
  static int next() { return System.in.read(); }
  public static void main(String[] args) {
    int c, best = Integer.MIN_VALUE;
    long all = 0;
    while ((c = next()) != -1) {
      int n = 0;
      while (c >= '0' && c <= '9') {
        n = n * 10 + (c - '0');
        c = System.in.read();
      }
      if (n % 2 != 0) continue;
      best = Math.max(best, n);
      all += Math.abs(n - 5L);
      System.out.print((char) c);
    }
    System.out.println(all >>> 1 == ~best ? -all : Integer.parseInt(\"7\") << best);
  }
}
",
    "m36 new @1 to 1: this@1 #18
75 Block @1: []
m37 next @5 to 18:
76 Block @8: [77]
77 Return @9 ask: (ReadByte@15)
m38 main @22 to 168: args@27 #1[], c@31 int, best@33 int, all@40 long, n@59 int
78 Block @29: [79 80 81 82 94]
79 Declare @31 ask: l1
80 Eval @33 ask: (=@33 l2 -2147483648)
81 Eval @40 ask: (=@40 l3 0L)
82 While @44 ask reach 82: (!=@53 (=@48 l1 (static@50 m37 -)) -1) 83
83 Block @57: [84 85 89 91 92 93]
84 Eval @59 ask: (=@59 l4 0)
85 While @63 ask reach 85: (&&@68 (>=@66 l1 48) (<=@70 l1 57) -) 86
86 Block @73: [87 88]
87 Eval @74 ask: (=@75 l4 (+@79 (*@77 l4 10) (-@82 l1 48)))
88 Eval @86 ask: (=@87 l1 (ReadByte@93))
89 If @97 ask reach 83: (!=@102 (%@100 l4 2) 0) 90 -
90 Jump @105 ask: 83
91 Eval @107 ask: (=@108 l2 (Max@112 l2 l4))
92 Eval @118 ask: (+=@119 long long long l3 (Abs@123 (-@125 (to long l4) 5L)))
93 Print @129 ask: (to char l1) char@134
94 Print @142 ask: (?@154 (==@151 (>>>@149 l3 1) (to long (~ l2))) (- l3) (to long (<<@164 (ParseInt@161 $1) l2))) long line@147
init 18 to 1:
74 Block @1: []
texts \": \" \"7\"
main 38 of 95
",
);

// Updates before and behind, on each kind of place and type, with their values used.
const STEPS: (&str, &str) = (
    "class Dial {
  byte low;
  short mid = 1;
  static char mark = 'm';
  static long far;
  Dial next;
  int turn(int n) {
    int k = n++ - --n, m;
    k = m = low;
    far = m = k;
    low = (byte) (low + mid);
    next.low += mid++;
    next.next.mid >>= far--;
    this.mid *= -k;
    mark ^= mark--;
    far = Dial.mark++ + next.mid % 2L;
    n -= k = -(+n);
    return n--;
  }
  public static void main(String[] args) { new Dial().turn(-2147483648); }
}
",
    "m36 <fields> @1 to 1: this@1 #18
75 Block @1: [78]
78 Eval @7 ask: (=@7 (f2@7 l0) 1s)
m37 new @1 to 1: this@1 #18
76 Block @1: [77]
77 Eval @1: (direct@1 m36 l0)
m38 turn @25 to 120: this@25 #18, n@28 int, k@32 int, m@40 int
80 Block @30: [81 82 83 84 85 86 87 88 89 90 91 92]
81 Eval @32 ask: (=@32 l2 (-@36 (old +=@35 int int int l1 -) (-=@37 int int int l1 -)))
82 Declare @40 ask: l3
83 Eval @42 ask: (=@43 l2 (=@45 l3 (to int (f1@46 l0))))
84 Eval @48 ask: (=@49 s4@48 (to long (=@51 l3 l2)))
85 Eval @54 ask: (=@55 (f1@54 l0) (to byte (+@61 (to int (f1@60 l0)) (to int (f2@62 l0)))))
86 Eval @65 ask: (+=@68 byte short int (f1@67 (f5@65 l0)) (old +=@70 short int int (f2@69 l0) -))
87 Eval @72 ask: (>>=@77 short long int (f2@76 (f5@74 (f5@72 l0))) (old -=@79 long int long s4@78 -))
88 Eval @81 ask: (*=@84 short int int (f2@83 l0) (- l2))
89 Eval @88 ask: (^=@89 char char int s3@88 (old -=@91 char int int s3@90 -))
90 Eval @93 ask: (=@94 s4@93 (+@99 (to long (old +=@98 char int int s3@97 -)) (%@103 (to long (f2@102 (f5@100 l0))) 2L)))
91 Eval @106 ask: (-=@107 int int int l1 (=@109 l2 (- (+ l1))))
92 Return @116 ask: (old -=@118 int int int l1 -)
m39 main @124 to 143: args@129 #1[]
93 Block @131: [94]
94 Eval @132 ask: (chosen@138 #18 m38 (new@132 #18 m37) -2147483648)
init 18 to 1:
74 Block @1: [79]
79 Eval @13 ask: (=@13 s3@13 109c)
texts \": \"
main 39 of 95
",
);

pub static ROWS: [(&str, &str); 6] = [CAUGHT, CONDITIONS, TEXTS, ARRAYS, INPUT, STEPS];
