//! The word rule is the rule in force, what it means, and that each step keeps it.
ghost use Rattle.completion_word.specs.Laws.{NeverBoth, PassedIsWithdrawn, UsedAgain, ShownByItsWord};
ghost use Rattle.completion_word.specs.Kept.{Begins, SplitKeeps, PostKeeps, WithdrawKeeps, LearnKeeps, LookKeeps, TakeKeeps, PassKeeps};
ghost use Rattle.completion_word.specs.Kept.{JoinKeeps, NoteKeeps, NoteJoinKeeps, ToldPeerKeeps, ToldOwnerKeeps, CheckKeeps};
ghost use Rattle.completion_word.specs.Steps.{Posts, Withdraws, Learns, Looks, Takes, Passes, HearsOwner, HearsPeer, Checks};
ghost use Rattle.completion_word.specs.InForce.{IsInForce, TellsJust};

use crate::rule::{
    Check, HearOwner, HearPeer, Learn, LinkRule, LookAt, Pass, Post, Take, Withdraw,
};
use crate::views::View;
use crate::words::Words;
use atomic_table::{Play, TableRule};

/// What holds of these words and of the views of their seats between any two atomic steps, whoever
/// makes them: the rule of their own table is the word rule, and no part of it is forgotten.
pub fn rule_in_force(words: &Words)
    ensures { IsInForce ⟦<LinkRule as TableRule<u64, View, usize>>⟧.holds words.now }
{}

/// What the steps of the calls tell their seats is what `Steps` says of each kind. By the word rule
/// it is true of the word that the call is about, and of no other.
pub fn steps_tell()
    ensures posts { TellsJust ⟦<Post as Play<u64, View>>⟧.then Posts }
    ensures withdraws { TellsJust ⟦<Withdraw as Play<u64, View>>⟧.then Withdraws }
    ensures learns { TellsJust ⟦<Learn as Play<u64, View>>⟧.then Learns }
    ensures looks { TellsJust ⟦<LookAt as Play<u64, View>>⟧.then Looks }
    ensures takes { TellsJust ⟦<Take as Play<u64, View>>⟧.then Takes }
    ensures passes { TellsJust ⟦<Pass as Play<u64, View>>⟧.then Passes }
    ensures hears_owner { TellsJust ⟦<HearOwner as Play<u64, View>>⟧.then HearsOwner }
    ensures hears_peer { TellsJust ⟦<HearPeer as Play<u64, View>>⟧.then HearsPeer }
    ensures checks { TellsJust ⟦<Check as Play<u64, View>>⟧.then Checks }
{}

/// What holds of any words and views that meet the word rule, and so between any two atomic steps,
/// whoever makes them.
pub fn rule_means()
    // An offer is never both taken and withdrawn.
    ensures never_both { NeverBoth }

    // An offer that is passed by is withdrawn, with the stamp that the passing answers.
    ensures passed { PassedIsWithdrawn }

    // Where there is room for a post, the earlier offer of its word is learned and decided.
    ensures used_again { UsedAgain }

    // The word of an offer that is not learned shows that offer, or the decision that answers it.
    ensures shown { ShownByItsWord }
{}

/// Unused words meet the word rule, and each kind of step keeps it: not only from the states that
/// runs reach, but from any that meets it.
pub fn rule_is_kept()
    ensures begins { Begins }
    ensures split { SplitKeeps }
    ensures post { PostKeeps }
    ensures withdraw { WithdrawKeeps }
    ensures learn { LearnKeeps }
    ensures look { LookKeeps }
    ensures take { TakeKeeps }
    ensures pass { PassKeeps }
    ensures join { JoinKeeps }
    ensures note { NoteKeeps }
    ensures note_join { NoteJoinKeeps }
    ensures told_peer { ToldPeerKeeps }
    ensures told_owner { ToldOwnerKeeps }
    ensures check { CheckKeeps }
{}
