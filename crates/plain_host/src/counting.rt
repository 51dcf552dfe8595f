ghost use Rattle.std.specs.Prelude.{◌≡◌, ◌≤◌, ◌<◌, length, filter, slice_get, slice_set, Some, OnOk, OnErr};
ghost use Rattle.std.specs.Cmp.Lexicographic.{slice_cmp};
ghost use Rattle.std.specs.Ordering.{nat_cmp};
ghost use Rattle.action_host.specs.Counts.{AreCounts, count_of, counted, once, place_cmp, uncounted};
ghost use Rattle.action_host.specs.Scenes.{leads_to};
ghost use Rattle.plain_host.specs.Places.{in_front, amount_at, is_before, is_channel_before, is_channel_up_to};

use action_host::{Tallies, Tally};
use epl_values::Text;
use std::alloc::{AllocError, Global};
use std::cmp::Ordering;

// ---- places

fn channel_order(tally: &Tally, channel: &str) -> Ordering
    ensures { result ≡ slice_cmp nat_cmp tally.now.channel channel.now }
{
    tally.channel.as_str().cmp(channel)
}

fn place_order(tally: &Tally, channel: &str, slot: u8) -> Ordering
    ensures { result ≡ place_cmp tally.now (once channel.now slot) }
{
    channel_order(tally, channel).then(tally.slot.cmp(&slot))
}

/// The place of a channel and a slot, or that where it would be put.
fn place_of(tallies: &Tallies, channel: &str, slot: u8) -> usize
    requires { AreCounts tallies.now }
    ensures place { result ≡ in_front (is_before channel.now slot) tallies.now }
    ensures within { result ≤ length tallies.now }
{
    tallies
        .as_slice()
        .partition_point(|tally| place_order(tally, channel, slot).is_lt())
}

/// The count at a place: 0 where another channel or slot stands there.
fn amount_at(tallies: &Tallies, at: usize, channel: &str, slot: u8) -> u64
    ensures { result ≡ amount_at channel.now slot (slice_get tallies.now at) }
{
    match tallies.as_slice().get(at) {
        None => 0,
        Some(tally) => {
            if place_order(tally, channel, slot).is_eq() {
                tally.count
            } else {
                0
            }
        }
    }
}

/// Puts a count at a place.
fn set_count(alloc: Global, tallies: &mut Tallies, at: usize, count: u64)
    requires { at < length tallies.old }
    ensures { (t : Tally) → slice_get tallies.old at ≡ Some t → tallies.new ≡ slice_set tallies.old at (record t { count = count }) }
{
    let hole = Tally {
        channel: Text::new(alloc),
        slot: 0,
        count: 0,
    };
    let Tally {
        channel,
        slot,
        count: _old,
    } = tallies.set(at, hole);
    let _hole = tallies.set(
        at,
        Tally {
            channel,
            slot,
            count,
        },
    );
}

// ---- counts

/// How often a slot is counted for a channel.
pub fn count_of(tallies: &Tallies, channel: &str, slot: u8) -> u64
    requires { AreCounts tallies.now }
    ensures { result ≡ count_of channel.now slot tallies.now }
{
    let at = place_of(tallies, channel, slot);
    amount_at(tallies, at, channel, slot)
}

/// One more. Where there is no memory, or no number for it, the counts are as before.
pub fn count_one(
    alloc: Global,
    tallies: &mut Tallies,
    channel: &str,
    slot: u8,
) -> Result<(), AllocError>
    requires { AreCounts tallies.old }
    ensures ok { OnOk result (tallies.new ≡ counted channel.now slot tallies.old) }
    ensures err { OnErr result (tallies.new ≡ tallies.old) }
    ensures order { AreCounts tallies.new }
{
    let at = place_of(tallies, channel, slot);
    let count = amount_at(tallies, at, channel, slot);
    if count == 0 {
        let channel = Text::of(alloc, channel)?;
        return tallies.insert(
            at,
            Tally {
                channel,
                slot,
                count: 1,
            },
        );
    }
    let Some(more) = count.checked_add(1) else {
        return Err(AllocError);
    };
    set_count(alloc, tallies, at, more);
    Ok(())
}

/// One less, where there is one.
pub fn uncount_one(alloc: Global, tallies: &mut Tallies, channel: &str, slot: u8)
    requires { AreCounts tallies.old }
    ensures means { tallies.new ≡ uncounted channel.now slot tallies.old }
    ensures order { AreCounts tallies.new }
{
    let at = place_of(tallies, channel, slot);
    let count = amount_at(tallies, at, channel, slot);
    if count == 0 {
        return;
    }
    if count == 1 {
        let _gone = tallies.remove(at);
        return;
    }
    set_count(alloc, tallies, at, count - 1);
}

// ---- targets

fn count_before(tallies: &Tallies, channel: &str) -> usize
    requires { AreCounts tallies.now }
    ensures { result ≡ in_front (is_channel_before channel.now) tallies.now }
{
    tallies
        .as_slice()
        .partition_point(|tally| channel_order(tally, channel).is_lt())
}

fn count_up_to(tallies: &Tallies, channel: &str) -> usize
    requires { AreCounts tallies.now }
    ensures { result ≡ in_front (is_channel_up_to channel.now) tallies.now }
{
    tallies
        .as_slice()
        .partition_point(|tally| channel_order(tally, channel).is_le())
}

/// How many slots are counted for a channel.
pub fn count_targets(tallies: &Tallies, channel: &str) -> usize
    requires { AreCounts tallies.now }
    ensures { result ≡ length (filter (leads_to channel.now) tallies.now) }
{
    count_up_to(tallies, channel) - count_before(tallies, channel)
}
