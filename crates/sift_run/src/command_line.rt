//! The words of a program's command line.
ghost use Rattle.std.specs.Prelude.{◌≡◌, drop, map, string_bytes, IfOk, IfErr};
ghost use Rattle.std.specs.Vec.Iter.{into_iter_items};
ghost use Rattle.sift_run.specs.Systems.{AreProgramArguments, IsArgumentsError};

use crate::system::HasArguments;
use archive_args::OrderStop;
use std::alloc::{AllocError, AllocGlobal, Global};
use std::env::Args;

/// How much output a program gathers before it is written.
pub const OUTPUT_ROOM: usize = 131_072;

/// The words behind the first one, which is the program's name.
fn words_behind(alloc: Global, words: Args) -> Result<Vec<String>, AllocError>
    ensures { IfOk result (λ all. map string_bytes all.items ≡ drop 1 (map string_bytes (into_iter_items words))) }
{
    words.skip(1).collect(alloc)
}

/// The words behind the program's name. Words: one of them is no UTF-8. Memory: there was no memory for them.
pub fn command_words<R: HasArguments + AllocGlobal>(rt: &R) -> Result<Vec<String>, OrderStop>
    ensures ok { IfOk result (λ words. AreProgramArguments R.gave rt.now (map string_bytes words.items)) }
    ensures refused { IfErr result (IsArgumentsError R.gave rt.now) }
{
    let alloc = rt.alloc();
    let Ok(words) = rt.all_words() else {
        let text = "error: the words of the command line cannot be read\n";
        return match String::from_str(alloc, text) {
            Ok(text) => Err(OrderStop::Words(text)),
            Err(_) => Err(OrderStop::Memory),
        };
    };
    match words_behind(alloc, words) {
        Ok(words) => Ok(words),
        Err(_) => Err(OrderStop::Memory),
    }
}

/// The same words, borrowed.
pub fn borrowed<'a>(alloc: Global, words: &'a [String]) -> Result<Vec<&'a str>, AllocError>
    ensures { IfOk result (λ all. map (λ w. w.now) all.items ≡ map string_bytes words.now) }
{
    let mut all = Vec::new(alloc);
    for word in words.iter() {
        all.push(word.as_str())?;
    }
    Ok(all)
}
