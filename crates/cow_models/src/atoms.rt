//! The listed atoms of an action against a set of atoms.
ghost use Rattle.std.specs.Prelude.{◌≡◌, ◌<◌, All};
ghost use Rattle.std.specs.FinSet as set;
ghost use Rattle.task_kit.specs.Atoms.{lesser_of};
ghost use Rattle.task_kit.specs.Tasks.{set_of, IsFirstLack};

use mre_base::Bits;

/// Whether each listed atom is in the set.
pub fn has_all(bits: &Bits, atoms: &[u32]) -> bool
    requires { All (λ atom. atom < bits.now.width) atoms.now }
    ensures { result ≡ set.is_subset (set_of atoms.now) bits.now.members }
{
    for &atom in atoms {
        if !bits.contains(atom) {
            return false;
        }
    }
    true
}

/// The least listed atom that the set lacks.
pub fn least_missing(bits: &Bits, atoms: &[u32]) -> Option<u32>
    requires { All (λ atom. atom < bits.now.width) atoms.now }
    ensures { IsFirstLack (set_of atoms.now) bits.now.members result }
{
    let mut least = None;
    for &atom in atoms {
        if !bits.contains(atom) {
            least = Some(lesser(least, atom));
        }
    }
    least
}

fn lesser(least: Option<u32>, atom: u32) -> u32
    ensures { result ≡ lesser_of least atom }
{
    match least {
        None => atom,
        Some(other) => atom.min(other),
    }
}

/// Puts each listed atom into the set.
pub fn put_all(bits: &mut Bits, atoms: &[u32])
    requires { All (λ atom. atom < bits.old.width) atoms.now }
    ensures { bits.new ≡ record bits.old {
      members = set.union bits.old.members (set_of atoms.now);
    } }
{
    for &atom in atoms {
        bits.put(atom);
    }
}

/// Takes each listed atom out of the set.
pub fn take_all(bits: &mut Bits, atoms: &[u32])
    requires { All (λ atom. atom < bits.old.width) atoms.now }
    ensures { bits.new ≡ record bits.old {
      members = set.difference bits.old.members (set_of atoms.now);
    } }
{
    for &atom in atoms {
        bits.take_out(atom);
    }
}
