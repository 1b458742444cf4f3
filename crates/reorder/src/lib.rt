// A module with its items in another order, which a number decides.
#![tactic(auto)]

ghost use Rattle.std.specs.Prelude.{◌≡◌, ◌++◌, ◌+◌, ◌<◌, ◌≤◌, length, drop};
ghost use Rattle.std.proofs.Math.Seq.{paste};
ghost use Rattle.layout.specs.Layout.{Good, layout_of};
ghost use Rattle.refusal.specs.Refusal.{outcome_of};
ghost use Rattle.reorder.specs.Order.{arranged, modulus, next_number, permuted_by, shuffled_module};
ghost use Rattle.reorder.specs.Order.{max_items, PlacesListed, Places, Shuffled};

use layout::check_layout;
use node::items_start;
use record_bytes::length_at;
use refusal::Refusal;

// No module has more items: each has at least 16 bytes.
const MAX_ITEMS: usize = 4096;

// A generator of numbers below a prime.
pub const MODULUS: usize = 4294967291;

const FACTOR: usize = 279470273;

// Stores the places of the items, and answers how many there are.
fn list_items(s: &[u8], places: &mut [usize]) -> usize
    requires s_value { layout_of s.now ≡ Good }
    requires max_items_in_bounds { max_items ≤ length places.old }
    ensures { PlacesListed s.now places.new result }
{
    // from record to record by the lengths in the file: no index counts them
    let mut at = items_start(s);
    let mut count: usize = 0;
    while at < s.len() {
        places[count] = at;
        at += length_at(s, at);
        count += 1;
    }
    count
}

// The number after this one.
fn next_number(number: usize) -> usize
    requires { number < modulus }
    ensures { result ≡ next_number number }
{
    (number * FACTOR + 1) % MODULUS
}

// Puts the places in an order that the number decides: each, from the last, is exchanged with one of those up to it.
#[tactic(auto, using(crate::proofs::Exchanges::remainder_below))]
fn permute(places: &mut [usize], seed: usize)
    ensures { places.new ≡ permuted_by seed places.old }
{
    let mut number = seed % MODULUS;
    for last in (1..places.len()).rev() {
        number = next_number(number);
        places.swap(last, number % (last + 1));
    }
}

// Copies bytes to a place of the output.
fn copy_to(part: &[u8], output: &mut [u8], to: usize)
    requires { to + length part.now ≤ length output.old }
    ensures { output.new ≡ paste output.old to part.now (length part.now) }
{
    output[to..to + part.len()].copy_from_slice(part);
}

// Writes the module with its items in the order of these places.
fn arrange(s: &[u8], places: &[usize], output: &mut [u8])
    requires places { Places s.now places.now }
    requires s_in_bounds { length s.now ≤ length output.old }
    ensures { output.new ≡ arranged s.now places.now ++ drop (length s.now) output.old }
{
    let mut to = items_start(s);
    copy_to(&s[..to], output, 0);
    for &at in places {
        let stop = at + length_at(s, at);
        copy_to(&s[at..stop], output, to);
        to += stop - at;
    }
}

// Writes a module with no fault in its layout, with its items in an order that the number decides. There is room for
// their places.
fn write_items(input: &[u8], number: usize, places: &mut [usize], output: &mut [u8])
    requires input_value { layout_of input.now ≡ Good }
    requires max_items_in_bounds { max_items ≤ length places.old }
    requires input_in_bounds { length input.now ≤ length output.old }
    ensures { output.new ≡ shuffled_module input.now number ++ drop (length input.now) output.old }
{
    let count = list_items(input, places);
    permute(&mut places[..count], number);
    arrange(input, &places[..count], output);
}

// Writes the module with its items in an order that the number decides; or says why it is turned back.
pub fn shuffle(input: &[u8], number: usize, output: &mut [u8]) -> Result<(), Refusal>
    ensures { Shuffled input.now number output.old output.new (outcome_of result) }
{
    check_layout(input)?;
    if output.len() < input.len() {
        return Err(Refusal::ShortLoan);
    }
    let mut places = [0usize; MAX_ITEMS];
    write_items(input, number, &mut places, output);
    Ok(())
}
