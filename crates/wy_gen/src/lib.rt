//! Generated programs: a class of as many methods as are asked for, which its main calls in turn.
#![tactic(auto)]

ghost use Rattle.std.specs.Prelude.{◌≡◌, ◌<◌, ◌≤◌, ◌++◌, IfOk, OnOk, map, string_bytes};
ghost use Rattle.wy_gen.specs.Generated.{below, call, ended, method, source};

use std::alloc::{AllocError, Global};

/// The source of the program with `n` methods.
pub fn program(alloc: Global, n: u32) -> Result<Vec<u8>, AllocError>
    requires some { 1 ≤ n }
    requires few { n ≤ 2000 }
    ensures { IfOk result (λ bytes. bytes.items ≡ source n) }
{
    let mut text = String::new(alloc);
    text.push_str("class G {\nstatic int t = 1;\n")?;
    put_methods(&mut text, n)?;
    text.push_str("public static void main(String[] s) {\nint i = 0;\nwhile (i < 20) {\n")?;
    put_calls(&mut text, n)?;
    text.push_str("i = i + 1;\n}\nSystem.out.println(t);\n}\n}\n")?;
    Ok(text.into_bytes())
}

fn put_methods(text: &mut String, n: u32) -> Result<(), AllocError>
    requires { n ≤ 2000 }
    ensures { OnOk result
        (string_bytes text.new ≡ string_bytes text.old ++ ended (map (method n) (below n))) }
{
    for k in 0..n {
        put_method(text, n, k)?;
        text.push_str("\n")?;
    }
    Ok(())
}

#[tactic(auto, using(crate::proofs::Lines::two_halves), unfolding(crate::specs::Generated::divisor, crate::specs::Generated::addend))]
fn put_method(text: &mut String, n: u32, k: u32) -> Result<(), AllocError>
    requires { (k < n) × (n ≤ 2000) }
    ensures { OnOk result (string_bytes text.new ≡ string_bytes text.old ++ method n k) }
{
    let divisor = (13 * k + n) % 7 + 2;
    let addend = (31 * k + 17 * n) % 97 + 1;
    write!(text, "static int f{k}(int a) {{ if (a % {divisor} == 0) ")?;
    write!(text, "{{ t = t + {addend}; }} return a + t % {divisor}; }}")
}

fn put_calls(text: &mut String, n: u32) -> Result<(), AllocError>
    ensures { OnOk result
        (string_bytes text.new ≡ string_bytes text.old ++ ended (map call (below n))) }
{
    for k in 0..n {
        put_call(text, k)?;
        text.push_str("\n")?;
    }
    Ok(())
}

#[tactic(auto, unfolding(crate::specs::Generated::call))]
fn put_call(text: &mut String, k: u32) -> Result<(), AllocError>
    ensures { OnOk result (string_bytes text.new ≡ string_bytes text.old ++ call k) }
{
    write!(text, "t = t + f{k}(i);")
}
