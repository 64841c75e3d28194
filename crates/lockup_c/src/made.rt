//! How a machine is made and freed.
ghost use Rattle.std.specs.Prelude.{◌≡◌, ◌++◌, [], IfErr, IfOk, List, None, OnErr, OnOk, Some, map};
ghost use Rattle.lockup_c.specs.Made.{Clones, Copies, Frees, HasCopy, Makes, default_numbers, flag_named, initial_of, kinds_named};
ghost use Rattle.lockup_c.specs.Made.{misses_named, policy_named, settings_with, word_of};
ghost use Rattle.lockup_c.specs.Number.{config_code, fault_code};
ghost use Rattle.lockup_c.specs.declared.held.Held.TheVariants as helds;
ghost use Rattle.simulator.specs.Simulator.{IsNewSimulator, IsNotBuilt};
ghost use Rattle.simulator.specs.declared.simulator.Simulator.{Simulator};

use super::codes::{DONE, IN_USE, NO_MACHINE, NO_MEMORY, OUT_OF_RANGE};
use super::handle::{Handle, put, take};
use super::held::Held;
use super::structs::{Config as Numbers, Initial};
use address_map::{Config, ConfigError, CounterWords, InitialValues, PolicyKind, WordAddr};
use litmus_text::{Settings, TextFault};
use mshr_file::MissKind;
use simulator::Simulator;
use std::alloc::{AllocError, Global};

/// The version: 10000 for each major one, 100 for each minor one.
#[unsafe(no_mangle)]
pub extern "C" fn lockup_version() -> u32
    ensures { result ≡ 300 }
{
    300
}

/// Writes the configuration of a script that says nothing.
#[unsafe(no_mangle)]
pub extern "C" fn lockup_defaults(config: &mut Numbers) -> u32
    ensures config { config.new ≡ default_numbers }
    ensures code { result ≡ 0 }
{
    *config = Numbers {
        cores: 2,
        slices: 1,
        lines: 16,
        sets: 4,
        ways: 2,
        mshrs: 4,
        targets: 4,
        writebacks: 2,
        policy: 0,
        seed: 0,
        misses: 0,
        exclusive: 0,
    };
    DONE
}

/// Makes a machine in which each word begins as 0.
#[unsafe(no_mangle)]
pub extern "C" fn lockup_make(alloc: Global, handle: &mut Handle, config: &Numbers) -> u32
    ensures { Makes config.now [] [] result handle.old.value handle.new.value }
{
    make(alloc, handle, config, &[], &[])
}

/// Makes a machine in which these words begin with values of their own, and these are counters.
#[unsafe(no_mangle)]
pub extern "C" fn lockup_make_with(
    alloc: Global,
    handle: &mut Handle,
    config: &Numbers,
    initial: &[Initial],
    counters: &[u64],
) -> u32
    ensures { Makes config.now initial.now counters.now result handle.old.value handle.new.value }
{
    make(alloc, handle, config, initial, counters)
}

fn make(
    alloc: Global,
    handle: &mut Handle,
    config: &Numbers,
    initial: &[Initial],
    counters: &[u64],
) -> u32
    ensures { Makes config.now initial.now counters.now result handle.old.value handle.new.value }
{
    if let Some(held) = take(handle, alloc) {
        put(handle, held);
        return IN_USE;
    }
    let Some(kinds) = kinds_named(config) else {
        return OUT_OF_RANGE;
    };
    match build(alloc, config, initial, counters, kinds) {
        Ok(held) => {
            put(handle, held);
            DONE
        }
        Err(fault) => fault_code(fault),
    }
}

/// A policy, a miss file, and whether there is the exclusive state.
type Kinds = (PolicyKind, MissKind, bool);

fn kinds_named(config: &Numbers) -> Option<Kinds>
    ensures { result ≡ kinds_named config.now }
{
    let policy = policy_named(config.policy, config.seed)?;
    let misses = misses_named(config.misses)?;
    let exclusive = flag_named(config.exclusive)?;
    Some((policy, misses, exclusive))
}

fn policy_named(policy: u64, seed: u64) -> Option<PolicyKind>
    ensures { result ≡ policy_named policy seed }
{
    match policy {
        0 => Some(PolicyKind::Lru),
        1 => Some(PolicyKind::Fifo),
        2 => Some(PolicyKind::Random(seed)),
        _ => None,
    }
}

fn misses_named(misses: u64) -> Option<MissKind>
    ensures { result ≡ misses_named misses }
{
    match misses {
        0 => Some(MissKind::Explicit),
        1 => Some(MissKind::Inverted),
        _ => None,
    }
}

fn flag_named(flag: u64) -> Option<bool>
    ensures { result ≡ flag_named flag }
{
    match flag {
        0 => Some(false),
        1 => Some(true),
        _ => None,
    }
}

/// Returns a machine of these numbers and lists.
fn build(
    alloc: Global,
    numbers: &Numbers,
    initial: &[Initial],
    counters: &[u64],
    kinds: Kinds,
) -> Result<Box<Held, Global>, TextFault>
    ensures made { IfOk result (λ held. (simulator : Simulator) × (held.value ≡ helds.Machine simulator)
        × IsNewSimulator (settings_with numbers.now initial.now counters.now kinds.0 kinds.1 kinds.2) simulator) }
    ensures fault { IfErr result (IsNotBuilt
        (settings_with numbers.now initial.now counters.now kinds.0 kinds.1 kinds.2).config) }
{
    let settings = settings_of(alloc, numbers, initial, counters, kinds)?;
    let simulator = Simulator::build(alloc, settings)?;
    Ok(Box::new(alloc, Held::Machine(simulator))?)
}

fn settings_of(
    alloc: Global,
    numbers: &Numbers,
    initial: &[Initial],
    counters: &[u64],
    kinds: Kinds,
) -> Result<Settings, AllocError>
    ensures { IfOk result (λ settings. settings
        ≡ settings_with numbers.now initial.now counters.now kinds.0 kinds.1 kinds.2) }
{
    let (policy, misses, exclusive) = kinds;
    let init = initial_values(alloc, initial)?;
    let counters = counter_words(alloc, counters)?;
    let config = Config {
        cores: numbers.cores,
        slices: numbers.slices,
        lines: numbers.lines,
        sets: numbers.sets,
        ways: numbers.ways,
        mshrs: numbers.mshrs,
        targets: numbers.targets,
        writebacks: numbers.writebacks,
        policy,
        exclusive,
        init,
        counters,
    };
    Ok(Settings { config, misses })
}

fn initial_values(alloc: Global, initial: &[Initial]) -> Result<InitialValues, AllocError>
    ensures { IfOk result (λ values. values ≡ map initial_of initial.now) }
{
    let mut values = InitialValues::new(alloc);
    for one in initial {
        values.push(WordAddr(one.word), one.value)?;
    }
    Ok(values)
}

fn counter_words(alloc: Global, counters: &[u64]) -> Result<CounterWords, AllocError>
    ensures { IfOk result (λ words. words ≡ map word_of counters.now) }
{
    let mut words = CounterWords::new(alloc);
    for word in counters {
        words.push(WordAddr(*word))?;
    }
    Ok(words)
}

fn fault_code(fault: TextFault) -> u32
    ensures { result ≡ fault_code fault }
{
    match fault {
        TextFault::Config(error) => config_code(error),
        TextFault::Line { .. } => NO_MEMORY,
        TextFault::CannotWrite => NO_MEMORY,
        TextFault::NoMemory => NO_MEMORY,
    }
}

const fn config_code(error: ConfigError) -> u32
    ensures { result ≡ config_code error }
{
    match error {
        ConfigError::Cores => 101,
        ConfigError::Slices => 102,
        ConfigError::Lines => 103,
        ConfigError::Sets => 104,
        ConfigError::Ways => 105,
        ConfigError::Mshrs => 106,
        ConfigError::Targets => 107,
        ConfigError::Writebacks => 108,
        ConfigError::Init => 109,
        ConfigError::Counters => 110,
    }
}

/// Gives a handle that has nothing the same machine once more, which goes on by itself.
#[unsafe(no_mangle)]
pub extern "C" fn lockup_clone(alloc: Global, handle: &mut Handle, copy: &mut Handle) -> u32
    ensures copy { Clones result handle.old.value copy.old.value copy.new.value }
    ensures kept { handle.new.value ≡ handle.old.value }
{
    if let Some(held) = take(copy, alloc) {
        put(copy, held);
        return IN_USE;
    }
    match take(handle, alloc) {
        Some(held) => {
            let code = give_copy(&held, copy, alloc);
            put(handle, held);
            code
        }
        None => NO_MACHINE,
    }
}

// The handle has nothing.
fn give_copy(held: &Held, copy: &mut Handle, alloc: Global) -> u32
    requires { copy.old.value ≡ None }
    ensures { Copies result held.now copy.new.value }
{
    let Held::Machine(simulator) = held else {
        return NO_MACHINE;
    };
    match copied(simulator, alloc) {
        Ok(same) => {
            put(copy, same);
            DONE
        }
        Err(_) => NO_MEMORY,
    }
}

fn copied(simulator: &Simulator, alloc: Global) -> Result<Box<Held, Global>, AllocError>
    ensures { IfOk result (λ held. HasCopy simulator.now (Some held.value)) }
{
    let copy = simulator.try_clone()?;
    Ok(Box::new(alloc, Held::Machine(copy))?)
}

/// Frees what a handle has.
#[unsafe(no_mangle)]
pub extern "C" fn lockup_free(alloc: Global, handle: &mut Handle) -> u32
    ensures { Frees result handle.old.value handle.new.value }
{
    match take(handle, alloc) {
        Some(_) => DONE,
        None => NO_MACHINE,
    }
}
