ghost use Rattle.std.specs.Prelude.{ℕ, ◌≡◌, ◌<◌, ◌≤◌, ◌↔◌, ◌+◌, IsTrue, IsFalse, List, length, slice_get, slice_set, slice_index_or, Option, Some, None, OnOk, IfOk, IfErr};
ghost use Rattle.act1_channel.specs.declared.problem.Problem.{Problem};
ghost use Rattle.act1_search.specs.declared.verdict.Verdict.{Verdict};
ghost use Rattle.act1_farm.specs.Usable.{Decides};
ghost use Rattle.act1_farm.specs.Story.{asked_for, has_connections};
ghost use Rattle.act1_farm.specs.Verdicts.{AreVerdicts, IsAssigned, IsRefuted};
ghost use Rattle.act1_farm.specs.Deciding.{IsDecided, IsFrom, IsStopFor, StopsAt, own_found, stop_at};

use crate::outcome::{FarmStop, Tally};
use act1_base::Items;
use act1_channel::Problem;
use act1_search::{SearchStop, Verdict, search};
use std::alloc::Global;

// The verdict that a usable answer brought, or that of the search.
fn verdict_for(
    alloc: Global,
    problem: &Problem,
    budget: u64,
    found: Option<Verdict>,
) -> Result<Verdict, SearchStop>
    requires budget { 0 < budget }
    requires found { (w : Verdict) → found ≡ Some w → Decides problem.now w }
    ensures from { IfOk result (IsFrom problem.now budget found) }
    ensures decides { IfOk result (Decides problem.now) }
    ensures stop { IfErr result (IsStopFor problem.now budget found) }
{
    match found {
        Some(verdict) => Ok(verdict),
        None => search(alloc, problem, budget),
    }
}

// Whether the verdict is a refutation.
fn is_refuted(verdict: &Verdict) -> bool
    ensures refuted { IsTrue result ↔ IsRefuted verdict.now }
    ensures assigned { IsFalse result ↔ IsAssigned verdict.now }
{
    match verdict {
        Verdict::Assigned(_) => false,
        Verdict::Refuted(_) => true,
    }
}

// Takes out what was found for a problem.
fn take_found(found: &mut Vec<Option<Verdict>>, number: usize) -> Option<Verdict>
    requires { number < length found.old.items }
    ensures value { result ≡ slice_index_or found.old.items number None }
    ensures rest { found.new.items ≡ slice_set found.old.items number None }
{
    found[number].take()
}

// Takes out what was found for a problem, if it was asked for, and counts it then.
fn found_for(
    problem: &Problem,
    found: &mut Vec<Option<Verdict>>,
    number: &mut usize,
) -> Option<Verdict>
    requires within { IsTrue (has_connections problem.now) → number.old < length found.old.items }
    ensures value { result ≡ own_found problem.now found.old.items number.old }
    ensures next { IsTrue (has_connections problem.now) → number.new ≡ number.old + 1 }
    ensures same { IsFalse (has_connections problem.now) → number.new ≡ number.old }
    ensures later { (j : ℕ) → number.new ≤ j → slice_get found.new.items j ≡ slice_get found.old.items j }
    ensures long { length found.new.items ≡ length found.old.items }
{
    if problem.connections.len() == 0 {
        return None;
    }
    let own = take_found(found, *number);
    *number += 1;
    own
}

// What stops the deciding at this channel.
fn stop_at(channel: u16, tally: Tally, stop: SearchStop) -> FarmStop
    ensures { result ≡ stop_at channel tally stop }
{
    match stop {
        SearchStop::Spent { conflicts } => FarmStop::Spent {
            channel,
            conflicts,
            tally,
        },
        SearchStop::Memory => FarmStop::Memory,
    }
}

/// The verdicts of the channels, each by what was found for it, or else by the search, up to the first refuted one.
pub fn decide(
    alloc: Global,
    problems: &[Problem],
    budget: u64,
    found: Items<Option<Verdict>>,
    tally: Tally,
) -> Result<Items<Verdict>, FarmStop>
    requires few { length problems.now ≤ 65535 }
    requires budget { 0 < budget }
    requires each { length found ≡ length (asked_for problems.now) }
    requires decides { (i : ℕ) (p : Problem) (w : Verdict) → slice_get (asked_for problems.now) i ≡ Some p → slice_get found i ≡ Some (Some w) → Decides p w }
    ensures ok { IfOk result (AreVerdicts problems.now (IsDecided problems.now budget found)) }
    ensures err { IfErr result (StopsAt problems.now budget found tally) }
{
    let mut left = found.into_vec();
    let mut verdicts = Items::new(alloc);
    let mut number = 0;
    for channel in 0..problems.len() {
        let problem = &problems[channel];
        let own = found_for(problem, &mut left, &mut number);
        let verdict = match verdict_for(alloc, problem, budget, own) {
            Ok(verdict) => verdict,
            Err(stop) => return Err(stop_at(channel as u16, tally, stop)),
        };
        let refuted = is_refuted(&verdict);
        verdicts.push(verdict)?;
        if refuted {
            return Ok(verdicts);
        }
    }
    Ok(verdicts)
}
