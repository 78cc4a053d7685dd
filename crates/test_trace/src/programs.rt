//! The programs that are run.

/// A source, its input, and how many events its run has.
#[derive(Clone, Copy)]
pub struct Program {
    pub source: &'static str,
    pub input: &'static str,
    pub events: u32,
}

pub static PROGRAMS: [Program; 2] = [
    Program {
        source: SMALL,
        input: "",
        events: 10,
    },
    Program {
        source: BANK,
        input: "100,200,300,40",
        events: 214,
    },
];

/// A loop, whose trace has 196 blocks.
pub static LONG: Program = Program {
    source: LOOP,
    input: "",
    events: 200_008,
};

const LOOP: &str = "class M{public static void main(String[] a){
int i=0;while(i<100000){i=i+1;}System.out.println(i);}}";

const SMALL: &str = "class Main {
  public static void main(String[] args) {
    int x = 2;
    int y = 0;
    if (x > 1) {
      y = x + 3;
    }
    System.out.println(y);
  }
}
";

const BANK: &str = "interface Account { int balance(); void add(int n); String name(); }
abstract class Base implements Account {
  private int cents;
  public int balance() { return cents; }
  public void add(int n) {
    if (n < 0) throw new IllegalArgumentException(\"negative\");
    cents += n;
  }
}
class Plain extends Base {
  public String name() { return \"plain\"; }
}
class Bonus extends Base {
  @Override public void add(int n) { super.add(n + n / 10); }
  public String name() { return \"bonus\"; }
}
class Frozen extends Base {
  public void add(int n) { throw new IllegalStateException(\"frozen\"); }
  public String name() { return \"frozen\"; }
}
public class Bank {
  public static void main(String[] args) throws Exception {
    Account[] all = { new Plain(), new Bonus(), new Frozen() };
    int who = 0;
    int c = System.in.read();
    while (c != -1) {
      int n = 0;
      while (c >= '0' && c <= '9') {
        n = n * 10 + (c - '0');
        c = System.in.read();
      }
      try {
        all[who % 3].add(n);
      } catch (RuntimeException e) {
        System.out.println(e);
      }
      who++;
      c = System.in.read();
    }
    for (int i = 0; i < all.length; i++) {
      System.out.println(all[i].name() + \": \" + all[i].balance());
    }
  }
}
";
