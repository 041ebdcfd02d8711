ghost use Rattle.std.specs.Prelude.{◌≡◌, ◌<◌, ◌+◌, IfOk, length, replicate};
ghost use Rattle.act1_cover.specs.Costs.{AreCounts, AreRoots, AreWithin, IsWithin, capped, counted};
ghost use Rattle.act1_cover.specs.Tilings.{is_fork, is_root, references};

use crate::forest::{Forest, Fork, Term};
use act1_base::Memory;
use std::alloc::Global;

// One more than a count of references, where two stands for more too.
fn one_more(count: u8) -> u8
    ensures { result ≡ capped (count + 1) }
{
    if count == 0 { 1 } else { 2 }
}

// A place refers to a term.
fn refer(counts: &mut Vec<u8>, forest: &Forest, term: Term)
    requires count { length counts.old.items ≡ length forest.now.forks }
    requires within { IsWithin forest.now term }
    ensures { counts.new.items ≡ counted counts.old.items term }
{
    match term {
        Term::Zero => {}
        Term::One => {}
        Term::Var(_) => {}
        Term::Fork(fork) => {
            let fork = fork as usize;
            counts[fork] = one_more(counts[fork]);
        }
    }
}

// How many places refer to each fork, where two stands for more too.
fn references_of(alloc: Global, forest: &Forest) -> Result<Vec<u8>, Memory>
    requires { AreWithin forest.now }
    ensures { IfOk result (λ counts. AreCounts (length forest.now.forks) (references forest.now) counts.items) }
{
    let mut counts = vec![in alloc; 0; forest.forks.len()]?;
    for fork in forest.forks.as_slice() {
        refer(&mut counts, forest, fork.low);
        refer(&mut counts, forest, fork.high);
    }
    Ok(counts)
}

// Whether a term is the fork of this number.
fn is_fork(term: Term, number: usize) -> bool
    ensures { result ≡ is_fork number term }
{
    match term {
        Term::Zero => false,
        Term::One => false,
        Term::Var(_) => false,
        Term::Fork(fork) => fork as usize == number,
    }
}

/// Which forks are a tree's root: the forest's root, and each fork to which more than one place refers.
pub fn roots_of(alloc: Global, forest: &Forest) -> Result<Vec<bool>, Memory>
    requires { AreWithin forest.now }
    ensures { IfOk result (λ roots. AreRoots forest.now roots.items) }
{
    let counts = references_of(alloc, forest)?;
    let mut roots = Vec::new(alloc);
    for (number, count) in counts.iter().enumerate() {
        roots.push(is_fork(forest.root, number) || *count > 1)?;
    }
    Ok(roots)
}
