// Times simulate and run. With no argument each is called once, and only what it computed is printed;
// with a number above 0, simulate is called that many times and run a hundred times as often, and the
// nanoseconds of all calls are printed too.
#![tactic(auto)]

ghost use Rattle.std.specs.Prelude.{◌<◌};

use kinds::carry::Carries;
use kinds::elements::Carry;
use netlist::gate::Gate;
use netlist::refusal::Refusal;
use netlist::simulation::simulate;
use scan::run::run;
use sheet::sheet::Sheet;
use std::env;
use std::time::Instant;

const INPUTS: usize = 64;

const GATES: usize = 25000;

// A fixed random sequence.
#[derive(Drop)]
struct Random(u64);

impl Random {
    // The next number, below n.
    fn below(&mut self, n: usize) -> usize
        requires { 0 < n }
        ensures { result < n }
    {
        self.0 = self
            .0
            .wrapping_mul(6364136223846793005)
            .wrapping_add(1442695040888963407);
        (self.0 >> 33) as usize % n
    }

    // A random good gate as signal n.
    fn gate(&mut self, n: usize) -> Gate
        requires { 0 < n }
    {
        let a = self.below(n);
        let b = self.below(n);
        let table = self.below(16) as u8;
        if table % 5 == 0 {
            Gate::one(table % 4, a)
        } else {
            Gate::two(table, a, b)
        }
    }
}

// A number that tells apart lists that differ.
fn mixed(sum: u64, value: u8) -> u64 {
    sum.wrapping_mul(31).wrapping_add(value as u64)
}

// The mixed values of a step at each round, and the nanoseconds that the rounds take. Inlined, so that
// a round costs what it does in a loop of its own.
#[inline(always)]
fn timed<F: FnMut(usize) -> Result<u8, Refusal>>(
    rt: &HostRuntime,
    rounds: u64,
    mut step: F,
) -> anyhow::Result<(u64, u128)>
    requires { F.IsAlwaysCallable step }
{
    let mut sum = 0;
    let start = Instant::now(rt)?;
    for round in 0..rounds {
        sum = mixed(sum, step((round % 64) as usize)?);
    }
    Ok((sum, start.elapsed(rt)?.as_nanos()))
}

fn time_simulate(rt: &HostRuntime, rounds: u64) -> anyhow::Result<(u64, u128)> {
    let mut random = Random(1);
    let mut gates = Vec::new(rt.alloc());
    // A loop and no map: that n is not 0 is not proved in a closure that changes `random`.
    for n in INPUTS..INPUTS + GATES {
        gates.push(random.gate(n))?;
    }
    let mut inputs = vec![in rt.alloc(); 0; INPUTS]?;
    let mut values = vec![in rt.alloc(); 0; INPUTS + GATES]?;
    let (sum, taken) = timed(rt, rounds, |i| {
        if let Some(b) = inputs.get_mut(i) {
            *b ^= 1;
        }
        simulate(&inputs, &gates, &mut values)?;
        Ok(values.last().copied().unwrap_or_default())
    })?;
    Ok((values.iter().fold(sum, |sum, v| mixed(sum, *v)), taken))
}

// A sheet of 64 columns and 1,024 joins: the chain of all columns, then neighbours.
fn drawn() -> anyhow::Result<Sheet> {
    let mut sheet = Sheet::bare();
    sheet.open(64)?;
    (1..64).try_fold(0, |low, high| sheet.join(low, high))?;
    for k in 0..961 {
        sheet.join(k % 63, k % 63 + 1)?;
    }
    Ok(sheet)
}

fn time_run(rt: &HostRuntime, rounds: u64) -> anyhow::Result<(u64, u128)> {
    let sheet = drawn()?;
    let closed = sheet.close()?;
    let pass = Carry {
        generate: false,
        propagate: true,
    };
    let mut elements = vec![in rt.alloc(); pass; 64]?;
    let mut values = vec![in rt.alloc(); pass; 64 + 1024]?;
    let (sum, taken) = timed(rt, rounds, |i| {
        if let Some(x) = elements.get_mut(i) {
            x.generate = !x.generate;
        }
        run::<Carries>(&closed, &elements, &mut values)?;
        Ok(values.last().is_some_and(|v| v.generate) as u8)
    })?;
    let bits = |v: &Carry| 2 * v.generate as u8 + v.propagate as u8;
    Ok((values.iter().fold(sum, |sum, v| mixed(sum, bits(v))), taken))
}

fn main(rt: HostRuntime) -> anyhow::Result<()> {
    let mut asked = None;
    for word in env::args(&rt)?.skip(1) {
        asked = Some(word.parse::<u64>()?).filter(|rounds| *rounds > 0);
    }
    let (sum, taken) = time_simulate(&rt, asked.unwrap_or(1))?;
    println!(rt; "simulate {sum}")?;
    let runs = asked.map_or(1, |rounds| rounds.saturating_mul(100));
    let (run_sum, run_taken) = time_run(&rt, runs)?;
    println!(rt; "run {run_sum}")?;
    if asked.is_some() {
        println!(rt; "nanoseconds {taken} {run_taken}")?;
    }
    Ok(())
}
