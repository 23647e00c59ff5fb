// A record and its two calls.
use super::print;
use aes_back_keys::back_keys;
use aes_decipher::decipher;
use aes_encipher::encipher;
use aes_keys::round_keys;
use check_records::{array, fill, hexadecimal, refused};
use refusal::Refusal;
use std::io::{self, Read};
use wire::{part, u32_at};

// A call's line. The vector for the next call, from the vector v of this one: a refusal leaves it.
fn line(
    out: &impl Print,
    answer: Result<[u8; 16], Refusal>,
    v: [u8; 16],
    s: &[u8],
) -> io::Result<[u8; 16]> {
    match answer {
        Ok(_) => print!(out; "done")?,
        Err(refusal) => refused(out, refusal)?,
    }
    let next = answer.unwrap_or(v);
    hexadecimal(out, &next)?;
    print::contents(out, s)?;
    println!(out)?;
    Ok(next)
}

// Two calls, the first on at most so many bytes, the second on the rest, with the vector that the first left.
fn two_calls<F: Fn([u8; 16], &mut [u8]) -> Result<[u8; 16], Refusal>>(
    out: &impl Print,
    call: F,
    v: [u8; 16],
    s: &mut [u8],
    first: usize,
) -> io::Result<()>
    requires { F.IsAlwaysCallable call }
{
    let (front, rest) = s.split_at_mut(first.min(s.len()));
    let answer = call(v, front);
    let next = line(out, answer, v, front)?;
    let answer = call(next, rest);
    line(out, answer, next, rest)?;
    Ok(())
}

// Reads a record and prints its lines; false at the end.
pub(crate) fn record(
    input: &mut impl Read,
    out: &impl Print,
    space: &mut [u8],
) -> io::Result<bool> {
    let mut head = [0u8; 57];
    if !fill(input, &mut head)? {
        return Ok(false);
    }
    let w = round_keys(array(part(&head, 1, 32)));
    let v = array(part(&head, 33, 16));
    let first = u32_at(&head, 49) as usize;
    let Some(s) = space.get_mut(..u32_at(&head, 53) as usize) else {
        return Ok(false);
    };
    if !fill(input, s)? {
        return Ok(false);
    }
    match head[0] {
        1 => two_calls(out, |v, s| encipher(w, v, s), v, s, first)?,
        2 => {
            let d = back_keys(w);
            two_calls(out, |v, s| decipher(d, v, s), v, s, first)?;
        }
        _ => return Ok(false),
    }
    Ok(true)
}
