//! Whether two vocabularies agree, or their first disagreement.

ghost use Rattle.std.specs.Prelude.{◌≡◌, ◌↔◌, IsTrue, IfOk, OnOk};
ghost use Rattle.model_kit.specs.Pairs.{Agree, names};
ghost use Rattle.joint_models.specs.Lists.{AreListsOf};
ghost use Rattle.joint_models.specs.Disagreements.{has, Disagree, AgreeIn, IsFirstIn};
ghost use Rattle.joint_models.specs.Disagreements.{IsFirstDisagreement, IfDiffers, spelled};
ghost use Rattle.joint_models.specs.Searching.{have_same_types, earlier_of, GoesOn, IsFound};

use crate::group::Group;
use crate::listed::Listed;
use crate::lists::Lists;
use crate::spelling::{spell, type_name};
use crate::{PairFault, PairStop};
use model_kit::{Signature, Vocabulary};
use mre_base::{List, NoMemory, Text};
use std::alloc::Global;

/// Passes where two vocabularies agree; else answers the first disagreement.
pub(crate) fn agree(
    alloc: Global,
    planner: &Vocabulary,
    user: &Vocabulary,
    planner_lists: &Lists,
    user_lists: &Lists,
) -> Result<(), PairStop>
    requires planner_are { AreListsOf planner.now planner_lists.now }
    requires user_are { AreListsOf user.now user_lists.now }
    ensures ok { OnOk result (Agree planner.now user.now) }
    ensures differs { IfDiffers result (IsFirstDisagreement planner.now user.now) }
    ensures disagree { IfDiffers result (λ fault. ¬ Agree planner.now user.now) }
{
    let planner = Side {
        words: planner,
        lists: planner_lists,
    };
    let user = Side {
        words: user,
        lists: user_lists,
    };
    if let Err(stop) = compare(alloc, Group::Types, planner, user) {
        return Err(stop);
    }
    if let Err(stop) = compare(alloc, Group::Objects, planner, user) {
        return Err(stop);
    }
    if let Err(stop) = compare(alloc, Group::Actions, planner, user) {
        return Err(stop);
    }
    if let Err(stop) = compare(alloc, Group::Predicates, planner, user) {
        return Err(stop);
    }
    compare(alloc, Group::Functions, planner, user)
}

// A vocabulary and all that it lists.
#[derive(Clone, Copy)]
struct Side<'a> {
    words: &'a Vocabulary,
    lists: &'a Lists,
}

// Passes where two vocabularies agree in a group; else answers the first disagreement there.
fn compare(alloc: Global, group: Group, planner: Side<'_>, user: Side<'_>) -> Result<(), PairStop>
    requires planner_are { AreListsOf planner.words.now planner.lists.now }
    requires user_are { AreListsOf user.words.now user.lists.now }
    ensures ok { OnOk result (AgreeIn group planner.entry.words.now user.entry.words.now) }
    ensures differs { IfDiffers result (IsFirstIn group planner.entry.words.now
        user.entry.words.now) }
{
    match earliest(alloc, group, planner, user)? {
        Some(name) => {
            let planner = spell_named(alloc, group, planner, &name)?;
            let user = spell_named(alloc, group, user, &name)?;
            Err(PairStop::Differs(PairFault { planner, user }))
        }
        None => Ok(()),
    }
}

// What a vocabulary has under a name, or `none`.
fn spell_named(alloc: Global, group: Group, side: Side<'_>, name: &Text) -> Result<Text, NoMemory>
    requires { AreListsOf side.words.now side.lists.now }
    ensures ok { IfOk result (λ text. text
        ≡ spelled group name.now (has group side.entry.words.now name.now)) }
{
    match side.lists.group(group).entry(name) {
        Some(entry) => spell(alloc, group, side.words, entry),
        None => Text::of(alloc, "none"),
    }
}

// The first name, in ASCII order, about which two vocabularies disagree.
fn earliest(
    alloc: Global,
    group: Group,
    planner: Side<'_>,
    user: Side<'_>,
) -> Result<Option<Text>, NoMemory>
    requires planner_are { AreListsOf planner.words.now planner.lists.now }
    requires user_are { AreListsOf user.words.now user.lists.now }
    ensures ok { IfOk result (IsFound (AgreeIn group planner.entry.words.now user.entry.words.now)
        (Disagree group planner.entry.words.now user.entry.words.now)) }
{
    let first = earlier_among(
        alloc,
        group,
        planner,
        user,
        &planner.lists.group(group).entries,
        None,
    )?;
    earlier_among(
        alloc,
        group,
        planner,
        user,
        &user.lists.group(group).entries,
        first,
    )
}

// The first of the names of a list about which the vocabularies disagree, or the one found before
// if that comes first.
fn earlier_among(
    alloc: Global,
    group: Group,
    planner: Side<'_>,
    user: Side<'_>,
    among: &List<Signature>,
    before: Option<Text>,
) -> Result<Option<Text>, NoMemory>
    requires planner_are { AreListsOf planner.words.now planner.lists.now }
    requires user_are { AreListsOf user.words.now user.lists.now }
    ensures ok { IfOk result (GoesOn (Disagree group planner.entry.words.now user.entry.words.now)
        (names among.now) before) }
{
    let mut least = before;
    for place in 0..among.len() {
        let name = &among.item(place).name;
        if do_disagree(group, planner, user, name) {
            least = Some(earlier(least, name.copy(alloc)?));
        }
    }
    Ok(least)
}

// The earlier of two names, of which the first may be absent.
fn earlier(least: Option<Text>, name: Text) -> Text
    ensures { result ≡ earlier_of least name }
{
    match least {
        Some(first) => {
            if name.as_str() < first.as_str() {
                name
            } else {
                first
            }
        }
        None => name,
    }
}

fn do_disagree(group: Group, planner: Side<'_>, user: Side<'_>, name: &Text) -> bool
    requires planner_are { AreListsOf planner.words.now planner.lists.now }
    requires user_are { AreListsOf user.words.now user.lists.now }
    ensures { IsTrue result ↔ Disagree group planner.entry.words.now user.entry.words.now name.now }
{
    let planner_entry = planner.lists.group(group).entry(name);
    let user_entry = user.lists.group(group).entry(name);
    match (planner_entry, user_entry) {
        (Some(one), Some(two)) => {
            !have_same_types(planner.words, user.words, &one.params, &two.params)
        }
        (None, None) => false,
        _ => group.is_shared(),
    }
}

// Whether types of two vocabularies have the same names, place by place.
fn have_same_types(one: &Vocabulary, two: &Vocabulary, ones: &List<u32>, twos: &List<u32>) -> bool
    ensures { result ≡ have_same_types one.now two.now ones.now twos.now }
{
    if ones.len() != twos.len() {
        return false;
    }
    for place in 0..ones.len() {
        if type_name(one, *ones.item(place)) != type_name(two, *twos.item(place)) {
            return false;
        }
    }
    true
}
