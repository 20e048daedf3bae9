//! The differences of two lists, form by form.

ghost use Rattle.std.specs.Prelude.{◌≡◌, Bool, All, map, flat_map, IfOk, OnOk, Option};
ghost use Rattle.std.specs.Option.{option_to_list};
ghost use Rattle.model_kit.specs.declared.vocabulary.Vocabulary.{Vocabulary};
ghost use Rattle.feature_diff.specs.Gathering.{Grows, IsWithin, AreWithin, spots_told, row_told};
ghost use Rattle.feature_diff.specs.Gathering.{AllTold};
ghost use Rattle.feature_diff.specs.Rows.{AreRows};

use crate::Difference;
use crate::gathered::Gathered;
use crate::rows::{FormRow, Spots, align};
use model_kit::Vocabulary;
use mre_base::{List, NoMemory, Text};
use std::alloc::Global;

// An entry of a list of a model, with its printed form.
pub(crate) trait Told<K> {
    ghost use Rattle.std.specs.Prelude.{List as ListOf, ℕ};
    ghost use Rattle.feature_diff.specs.declared.difference.Difference.{Difference as AnyDifference};

    ghost Fits: { Vocabulary → Self → Type 0 };

    ghost form: { Vocabulary → Self → ListOf ℕ };

    ghost alone: { K → Self → Bool → AnyDifference };

    ghost both: { K → Self → Self → Option AnyDifference };

    fn print(&self, alloc: Global, words: &Vocabulary) -> Result<Text, NoMemory>
        requires { Fits words.now self.now }
        ensures ok { IfOk result (λ text. text ≡ form words.now self.now) };

    // The difference if only one model has it.
    fn tell_alone(&self, alloc: Global, kind: &K, planner_has: bool) -> Result<Difference, NoMemory>
        ensures ok { IfOk result (λ difference. difference ≡ alone kind.now self.now planner_has) };

    // The difference between what both models have under one printed form, if it isn't the same.
    fn tell_both(
        &self,
        user: &Self,
        alloc: Global,
        kind: &K,
    ) -> Result<Option<Difference>, NoMemory>
        ensures ok { IfOk result (λ difference. difference ≡ both kind.now self.now user.now) };
}

// The printed forms of a list.
fn forms<K, T: Told<K>>(
    alloc: Global,
    words: &Vocabulary,
    items: &List<T>,
) -> Result<List<Text>, NoMemory>
    requires { All (T.Fits words.now) items.now }
    ensures ok { IfOk result (λ made. made ≡ map (T.form words.now) items.now) }
{
    let mut forms = List::empty(alloc);
    for place in 0..items.len() {
        forms.push(items.item(place).print(alloc, words)?)?;
    }
    Ok(forms)
}

// The difference between the entries at two places, one in each list.
fn told_at<K, T: Told<K>>(
    alloc: Global,
    kind: &K,
    planner: &List<T>,
    user: &List<T>,
    spots: Spots,
) -> Result<Option<Difference>, NoMemory>
    requires planner_within { IsWithin spots.planner planner.now }
    requires user_within { IsWithin spots.user user.now }
    ensures ok { IfOk result (λ told. option_to_list told
        ≡ spots_told (T.alone kind.now) (T.both kind.now) planner.now user.now spots.planner
        spots.user) }
{
    match spots.planner {
        Some(i) => match spots.user {
            Some(j) => planner.item(i).tell_both(user.item(j), alloc, kind),
            None => Ok(Some(planner.item(i).tell_alone(alloc, kind, true)?)),
        },
        None => match spots.user {
            Some(j) => Ok(Some(user.item(j).tell_alone(alloc, kind, false)?)),
            None => Ok(None),
        },
    }
}

// Adds the difference of two lists in one row, if there is one.
fn tell_row<K, T: Told<K>>(
    alloc: Global,
    kind: &K,
    planner: &List<T>,
    user: &List<T>,
    row: &FormRow,
    gathered: &mut Gathered,
) -> Result<(), NoMemory>
    requires planner_within { IsWithin row.now.spots.planner planner.now }
    requires user_within { IsWithin row.now.spots.user user.now }
    ensures ok { OnOk result (Grows gathered.old gathered.new
        (row_told (T.alone kind.now) (T.both kind.now) planner.now user.now row.now)) }
{
    match told_at::<K, T>(alloc, kind, planner, user, row.spots)? {
        Some(difference) => gathered.add(difference),
        None => Ok(()),
    }
}

// Adds the differences of two lists in all rows.
fn tell_rows<K, T: Told<K>>(
    alloc: Global,
    kind: &K,
    planner: &List<T>,
    user: &List<T>,
    rows: &List<FormRow>,
    gathered: &mut Gathered,
) -> Result<(), NoMemory>
    requires { All (AreWithin planner.now user.now) rows.now }
    ensures ok { OnOk result (Grows gathered.old gathered.new
        (flat_map (row_told (T.alone kind.now) (T.both kind.now) planner.now user.now) rows.now)) }
{
    for place in 0..rows.len() {
        tell_row::<K, T>(alloc, kind, planner, user, rows.item(place), gathered)?;
    }
    Ok(())
}

// Adds all differences of two lists.
pub(crate) fn tell<K, T: Told<K>>(
    alloc: Global,
    words: &Vocabulary,
    kind: &K,
    planner: &List<T>,
    user: &List<T>,
    gathered: &mut Gathered,
) -> Result<(), NoMemory>
    requires planner_fits { All (T.Fits words.now) planner.now }
    requires user_fits { All (T.Fits words.now) user.now }
    ensures ok { OnOk result (AllTold (T.alone kind.now) (T.both kind.now) (T.form words.now)
        planner.now user.now gathered.old gathered.new) }
{
    let planner_forms = forms::<K, T>(alloc, words, planner)?;
    let user_forms = forms::<K, T>(alloc, words, user)?;
    let rows = align(alloc, &planner_forms, &user_forms)?;
    tell_rows::<K, T>(alloc, kind, planner, user, &rows, gathered)
}
