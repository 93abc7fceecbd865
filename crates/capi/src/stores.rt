//! An answer into the store that is lent for it.

ghost use Rattle.std.specs.Prelude.{◌≡◌, Err, length};
ghost use Rattle.capi.specs.Words.{accepted, fits, Tells};
ghost use Rattle.capi.specs.Shown.{shown};

use crate::answers;
use answers::{Answer, OUT};
use refusal::Refusal;

/// What a call answers where a store is too short for it.
pub(crate) const SHORT: u64 = 255;

/// An answer's number, its words in `out`: 0 with the words of what is accepted, or the refusal's with its values.
pub(crate) fn put(out: &mut [u64; OUT], answer: Answer) -> u64
    ensures number { result ≡ (shown answer).number }
    ensures words { out.new ≡ (shown answer).words }
    ensures length { length out.new ≡ 8 }
{
    match answer {
        Ok(words) => {
            *out = words;
            0
        }
        Err(why) => refuse(out, why),
    }
}

/// The same into a store of any length; one of fewer than eight words is too short.
#[tactic(auto, using(crate::proofs::Fit::out_only), unfolding(format::specs::Pick::pick))]
pub(crate) fn tell(out: &mut [u64], answer: Answer) -> u64
    ensures { Tells (shown answer) (fits out.old) out.old result out.new }
{
    let Some(out) = out.first_chunk_mut() else {
        return SHORT;
    };
    put(out, answer)
}

/// A refusal's number, its values in `out`.
pub(crate) fn refuse(out: &mut [u64; OUT], why: Refusal) -> u64
    ensures number { result ≡ (shown (Err why)).number }
    ensures words { out.new ≡ (shown (Err why)).words }
    ensures length { length out.new ≡ 8 }
{
    *out = answers::values(why);
    why.number()
}

/// Words that are never refused, into a store of any length. `tell` of an `Ok` says the same, but the first word of a
/// `Result` shares its place with a refusal's bytes, and is then stored byte by byte.
#[tactic(auto, using(crate::proofs::Fit::out_only), unfolding(format::specs::Pick::pick))]
pub(crate) fn accept(out: &mut [u64], words: [u64; OUT]) -> u64
    ensures { Tells (accepted words) (fits out.old) out.old result out.new }
{
    match out.first_chunk_mut() {
        Some(eight) => {
            *eight = words;
            0
        }
        None => SHORT,
    }
}
