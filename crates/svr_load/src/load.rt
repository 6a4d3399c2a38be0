// The script of a load.

ghost use Rattle.std.specs.Prelude.{◌≡◌, ◌+◌, ◌*◌, ◌≤◌, length, IfOk, string_bytes};
ghost use Rattle.svr_load.specs.Script as spec;

use crate::memory::NoMemory;
use std::alloc::{AllocError, Global};

/// What `a` and `b` of a class have to add up to.
fn sum_of(i: u32) -> u64
    ensures { result ≡ spec.sum_of i }
{
    37 * u64::from(i) % 65_536
}

/// The block of every fifth class that contradicts the others.
fn contradiction<'a>(i: u32) -> &'a str
    ensures { result.now ≡ spec.contradiction i }
{
    if i % 5 == 0 {
        "constraint z { d[0] == 0; }\n"
    } else {
        ""
    }
}

fn class_text(alloc: Global, i: u32) -> Result<String, AllocError>
    ensures { IfOk result (λ s. string_bytes s ≡ spec.class_text i) }
{
    let sum = sum_of(i);
    let size = 1 + i % 8;
    let last = contradiction(i);
    format!(in alloc;
        "class C{i};\nrand bit [15:0] a; rand bit [15:0] b; rand bit [7:0] d [];\nconstraint c {{ a + b == 16'd{sum}; a < b; d.size() == {size};\nforeach (d[k]) d[k] > k; soft d[0] == 8'd9; }}\n{last}endclass\n"
    )
}

fn object_text(alloc: Global, i: u32) -> Result<String, AllocError>
    ensures { IfOk result (λ s. string_bytes s ≡ spec.object_text i) }
{
    format!(in alloc; "C{i} p{i} = new;\n")
}

fn call_text(alloc: Global, i: u32) -> Result<String, AllocError>
    ensures { IfOk result (λ s. string_bytes s ≡ spec.call_text i) }
{
    format!(in alloc; "p{i}.randomize();\n")
}

fn classes(alloc: Global, n: u32) -> Result<String, AllocError>
    ensures { IfOk result (λ s. string_bytes s ≡ spec.up_to n spec.class_text) }
{
    let mut text = String::new(alloc);
    for i in 0..n {
        text.push_str(&class_text(alloc, i + 1)?)?;
    }
    Ok(text)
}

/// An object of each class.
fn objects(alloc: Global, n: u32) -> Result<String, AllocError>
    ensures { IfOk result (λ s. string_bytes s ≡ spec.up_to n spec.object_text) }
{
    let mut text = String::new(alloc);
    for i in 0..n {
        text.push_str(&object_text(alloc, i + 1)?)?;
    }
    Ok(text)
}

/// A call on each object.
fn calls(alloc: Global, n: u32) -> Result<String, AllocError>
    ensures { IfOk result (λ s. string_bytes s ≡ spec.up_to n spec.call_text) }
{
    let mut text = String::new(alloc);
    for i in 0..n {
        text.push_str(&call_text(alloc, i + 1)?)?;
    }
    Ok(text)
}

fn script(alloc: Global, n: u32) -> Result<String, AllocError>
    ensures { IfOk result (λ s. string_bytes s ≡ spec.load_text n) }
{
    let classes = classes(alloc, n)?;
    let objects = objects(alloc, n)?;
    let calls = calls(alloc, n)?;
    format!(in alloc; "{classes}module m;\ninitial begin\n{objects}{calls}end\nendmodule\n")
}

/// A script of n classes with constraints on numbers and arrays, an object of each, and a call on each object.
///
/// The constraints of every fifth class contradict each other; those of the others have solutions.
#[tactic(auto, using(crate::proofs::Short::text_short))]
pub fn load_text(alloc: Global, n: u32) -> Result<Vec<u8>, NoMemory>
    ensures text { IfOk result (λ text. text.items ≡ spec.load_text n) }
    ensures short { IfOk result (λ text. length text.items ≤ 300 * n + 40) }
{
    Ok(script(alloc, n)?.into_bytes())
}
