ghost use Rattle.std.specs.Prelude.{◌≡◌, ◌<◌, ◌+◌, ◌-◌, ◌^◌, ℕ, length, slice_get, slice_set, Some, MatchOption, None, not, filter};
ghost use Rattle.std.specs.Option.{option_copied, option_map};
ghost use Rattle.std.specs.List.{find};
ghost use Rattle.context_meaning.specs.Contexts.{is_instance, put_globals};
ghost use Rattle.live_context.specs.declared.instances.LiveInstance.{LiveInstance as TheInstance};
ghost use Rattle.live_context.specs.Counts.{AreCounts, counts_in, instances_in, with_count};
ghost use Rattle.live_context.specs.Lent.{lent};
ghost use Rattle.live_context.specs.Order.{Ascend, below, number_of};
ghost use Rattle.live_context.specs.Places.{FoundAt};

use crate::lent::Lent;
use context_meaning::Instance;
use epl_values::Values;
use std::mem;

/// An instance, and how many live listeners it has.
#[derive(Drop)]
pub struct LiveInstance {
    pub instance: Instance,
    pub listeners: u64,
}

// ---- where it stands

fn count_numbered(instances: &[LiveInstance], number: u64) -> usize
    requires { Ascend number_of 0 (instances_in instances.now) }
    ensures { result ≡ below number_of number (instances_in instances.now) }
{
    instances.partition_point(|live| live.instance.number < number)
}

fn instance_at(instances: &[LiveInstance], at: usize) -> Option<&LiveInstance>
    ensures { option_copied result ≡ slice_get instances.now at }
{
    instances.get(at)
}

/// The place of the instance with a number.
fn place_of(instances: &[LiveInstance], number: u64) -> Option<usize>
    requires { Ascend number_of 0 (instances_in instances.now) }
    ensures { MatchOption result (find (is_instance number) (instances_in instances.now) ≡ None) (FoundAt number instances.now) }
{
    let at = count_numbered(instances, number);
    match instance_at(instances, at) {
        None => None,
        Some(live) => {
            if live.instance.number == number {
                Some(at)
            } else {
                None
            }
        }
    }
}

fn monitor_at(instances: &[LiveInstance], at: usize) -> u16
    requires { at < length instances.now }
    ensures { (x : TheInstance) → slice_get instances.now at ≡ Some x → result ≡ x.instance.monitor }
{
    instances[at].instance.monitor
}

/// The monitor of the instance with a number, where it is there.
pub fn monitor_in(instances: &[LiveInstance], number: u64) -> Option<u16>
    requires { Ascend number_of 0 (instances_in instances.now) }
    ensures { result ≡ option_map (λ i. i.monitor) (find (is_instance number) (instances_in instances.now)) }
{
    match place_of(instances, number) {
        None => None,
        Some(at) => Some(monitor_at(instances, at)),
    }
}

// ---- its globals

/// Puts globals into the instance at a place, and gives those that it had.
fn exchange(instances: &mut Vec<LiveInstance>, at: usize, globals: Values) -> Values
    requires { at < length instances.old.items }
    ensures old { (x : TheInstance) → slice_get instances.old.items at ≡ Some x → result ≡ x.instance.globals }
    ensures new { (x : TheInstance) → slice_get instances.old.items at ≡ Some x → instances.new.items ≡ slice_set instances.old.items at (record x { instance = record x.instance { globals = globals } }) }
{
    let live = &mut instances[at];
    mem::replace(&mut live.instance.globals, globals)
}

/// Takes the globals of the instance with a number, where it is there, and puts others in their place.
pub fn lend_from(instances: &mut Vec<LiveInstance>, number: u64, globals: Values) -> Option<Lent>
    requires { Ascend number_of 0 (instances_in instances.old.items) }
    ensures answer { result ≡ lent (find (is_instance number) (instances_in instances.old.items)) }
    ensures after { instances_in instances.new.items ≡ put_globals number globals (instances_in instances.old.items) }
    ensures counts { counts_in instances.new.items ≡ counts_in instances.old.items }
{
    match place_of(instances.as_slice(), number) {
        None => None,
        Some(at) => {
            let monitor = monitor_at(instances.as_slice(), at);
            let globals = exchange(instances, at, globals);
            Some(Lent { monitor, globals })
        }
    }
}

/// Puts globals into the instance with a number, where it is there.
pub fn put_into(instances: &mut Vec<LiveInstance>, number: u64, globals: Values)
    requires { Ascend number_of 0 (instances_in instances.old.items) }
    ensures after { instances_in instances.new.items ≡ put_globals number globals (instances_in instances.old.items) }
    ensures counts { counts_in instances.new.items ≡ counts_in instances.old.items }
{
    let _before = lend_from(instances, number, globals);
}

/// Takes the instance with a number out, where it is there.
pub fn take_out(number: u64, instances: &mut Vec<LiveInstance>)
    requires { Ascend number_of 0 (instances_in instances.old.items) }
    ensures after { instances_in instances.new.items ≡ filter (λ i. not (is_instance number i)) (instances_in instances.old.items) }
    ensures counts { (count : ℕ → ℕ) → AreCounts count (instances_in instances.old.items) (counts_in instances.old.items) → AreCounts count (instances_in instances.new.items) (counts_in instances.new.items) }
{
    match place_of(instances.as_slice(), number) {
        None => {}
        Some(at) => {
            let _gone = instances.remove(at);
        }
    }
}

// ---- its listeners

fn count_at(instances: &[LiveInstance], at: usize) -> u64
    requires { at < length instances.now }
    ensures { (x : TheInstance) → slice_get instances.now at ≡ Some x → result ≡ x.listeners }
{
    instances[at].listeners
}

fn put_count(instances: &mut Vec<LiveInstance>, at: usize, listeners: u64)
    requires { at < length instances.old.items }
    ensures { (x : TheInstance) → slice_get instances.old.items at ≡ Some x → instances.new.items ≡ slice_set instances.old.items at (record x { listeners = listeners }) }
{
    let live = &mut instances[at];
    live.listeners = listeners;
}

/// How many listeners the instance with a number has, where it is there.
pub fn count_of(instances: &[LiveInstance], number: u64) -> Option<u64>
    requires { Ascend number_of 0 (instances_in instances.now) }
    ensures { (count : ℕ → ℕ) → AreCounts count (instances_in instances.now) (counts_in instances.now) → MatchOption result (find (is_instance number) (instances_in instances.now) ≡ None) (λ n. n ≡ count number) }
{
    match place_of(instances, number) {
        None => None,
        Some(at) => Some(count_at(instances, at)),
    }
}

/// The instance with a number, where it is there, has so many listeners.
pub fn set_count(number: u64, instances: &mut Vec<LiveInstance>, listeners: u64)
    requires { Ascend number_of 0 (instances_in instances.old.items) }
    ensures same { instances_in instances.new.items ≡ instances_in instances.old.items }
    ensures counts { (count : ℕ → ℕ) → AreCounts count (instances_in instances.old.items) (counts_in instances.old.items) → AreCounts (with_count number listeners count) (instances_in instances.new.items) (counts_in instances.new.items) }
{
    match place_of(instances.as_slice(), number) {
        None => {}
        Some(at) => put_count(instances, at, listeners),
    }
}

/// The instance with a number, where it is there, has one listener more.
pub fn one_more(number: u64, instances: &mut Vec<LiveInstance>)
    requires { Ascend number_of 0 (instances_in instances.old.items) }
    ensures same { instances_in instances.new.items ≡ instances_in instances.old.items }
    ensures counts { (count : ℕ → ℕ) → AreCounts count (instances_in instances.old.items) (counts_in instances.old.items) → count number < 2 ^ 64 - 1 → AreCounts (with_count number (count number + 1) count) (instances_in instances.new.items) (counts_in instances.new.items) }
{
    match count_of(instances.as_slice(), number) {
        None => {}
        Some(count) => set_count(number, instances, count.saturating_add(1)),
    }
}

/// The instance with a number, where it is there, has one listener less.
pub fn one_less(number: u64, instances: &mut Vec<LiveInstance>)
    requires { Ascend number_of 0 (instances_in instances.old.items) }
    ensures same { instances_in instances.new.items ≡ instances_in instances.old.items }
    ensures counts { (count : ℕ → ℕ) → AreCounts count (instances_in instances.old.items) (counts_in instances.old.items) → AreCounts (with_count number (count number - 1) count) (instances_in instances.new.items) (counts_in instances.new.items) }
{
    match count_of(instances.as_slice(), number) {
        None => {}
        Some(count) => set_count(number, instances, count.saturating_sub(1)),
    }
}
