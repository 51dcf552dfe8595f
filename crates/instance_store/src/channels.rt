ghost use Rattle.std.specs.Prelude.{◌≡◌, ◌≤◌, length, slice_get, OnOk, OnErr};
ghost use Rattle.std.specs.Cmp.Lexicographic.{slice_cmp};
ghost use Rattle.std.specs.Ordering.{nat_cmp};
ghost use Rattle.instance_store.specs.Channels.{Ascend, holds, with_one, without_one};
ghost use Rattle.instance_store.specs.Places.{in_front, is_at, is_before};

use epl_values::{Text, Texts};
use std::alloc::AllocError;
use std::cmp::Ordering;

fn channel_order(held: &Text, channel: &str) -> Ordering
    ensures { result ≡ slice_cmp nat_cmp held.now channel.now }
{
    held.as_str().cmp(channel)
}

/// The place of the first channel that isn't a lesser one.
fn place_of(channels: &[Text], channel: &str) -> usize
    requires { Ascend channels.now }
    ensures place { result ≡ in_front (is_before channel.now) channels.now }
    ensures within { result ≤ length channels.now }
{
    channels.partition_point(|held| channel_order(held, channel).is_lt())
}

/// Whether this channel stands at a place.
fn is_at(channels: &[Text], at: usize, channel: &str) -> bool
    ensures { result ≡ is_at channel.now (slice_get channels.now at) }
{
    match channels.get(at) {
        None => false,
        Some(held) => held.as_str() == channel,
    }
}

/// Whether a channel is among them.
pub fn has(channels: &Texts, channel: &str) -> bool
    requires { Ascend channels.now }
    ensures { result ≡ holds channel.now channels.now }
{
    let seen = channels.as_slice();
    is_at(seen, place_of(seen, channel), channel)
}

/// Puts a channel among them. Where there is no memory they are as before.
pub fn put_in(channels: &mut Texts, channel: Text) -> Result<(), AllocError>
    requires { Ascend channels.old }
    ensures ok { OnOk result (channels.new ≡ with_one channel channels.old) }
    ensures err { OnErr result (channels.new ≡ channels.old) }
    ensures order { Ascend channels.new }
{
    let at = place_of(channels.as_slice(), channel.as_str());
    channels.insert(at, channel)
}

/// Takes a channel out once, where it is among them.
pub fn take_out(channels: &mut Texts, channel: &str) -> bool
    requires { Ascend channels.old }
    ensures answer { result ≡ holds channel.now channels.old }
    ensures after { channels.new ≡ without_one channel.now channels.old }
    ensures order { Ascend channels.new }
{
    let seen = channels.as_slice();
    let at = place_of(seen, channel);
    if is_at(seen, at, channel) {
        let _gone = channels.remove(at);
        true
    } else {
        false
    }
}
