//! A number for each class, such that the classes of a list have their places in it as numbers.

ghost use Rattle.std.specs.Prelude.{◌≡◌, ◌<◌, ◌^◌, ℕ, IfOk, length, slice_index};
ghost use Rattle.wy_table.specs.Numbering.{AreInverse, IsNumbering};

use std::alloc::{AllocError, Global};

/// A number for each of so many classes: its place in the list, as far as the list has each class once.
pub fn numbers(alloc: Global, many: usize, placed: &[u32]) -> Result<Vec<u32>, AllocError>
    requires { many < 2 ^ 32 }
    ensures { IfOk result (λ numbers. IsNumbering many numbers.items) }
{
    let mut numbers = in_order(alloc, many)?;
    let mut holders = in_order(alloc, many)?;
    for (place, c) in placed.iter().enumerate() {
        if place < many && (*c as usize) < many {
            exchange(&mut numbers, &mut holders, *c, place as u32);
        }
    }
    Ok(numbers)
}

fn in_order(alloc: Global, many: usize) -> Result<Vec<u32>, AllocError>
    requires { many < 2 ^ 32 }
    ensures long { IfOk result (λ numbers. length numbers.items ≡ many) }
    ensures each { IfOk result (λ numbers. (k : ℕ) → k < many → slice_index numbers.items k ≡ k) }
{
    let mut numbers = Vec::new(alloc);
    for n in 0..many {
        numbers.push(n as u32)?;
    }
    Ok(numbers)
}

// Gives a class a number, and the class that holds it the number which the other had.
fn exchange(numbers: &mut [u32], holders: &mut [u32], c: u32, number: u32)
    requires inverse { AreInverse (length numbers.old) numbers.old holders.old }
    requires class { c < length numbers.old }
    requires number { number < length numbers.old }
    ensures { AreInverse (length numbers.old) numbers.new holders.new }
{
    let before = numbers[c as usize];
    let other = holders[number as usize];
    numbers[other as usize] = before;
    holders[before as usize] = other;
    numbers[c as usize] = number;
    holders[number as usize] = c;
}
