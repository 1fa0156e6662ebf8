//! Laws of the sample policies: each contract is a law over their texts, and no call does anything.
ghost use Rattle.std.specs.Prelude.{◌≡◌, ◌≢◌, ℕ, ℤ, int_lt, true, List, Ok};
ghost use Rattle.policy_core.specs.declared.access.Standing.TheVariants.{Moderator};
ghost use Rattle.policy_core.specs.Written.{written_policy};
ghost use Rattle.archive_results.specs.Access.{Ask, ReaderFacts};
ghost use Rattle.archive_results.specs.Promise.{DeniesWithdrawn, DeniesEmbargoed};
ghost use Rattle.example_policies.specs.Samples.{HidesFromAllButModerators, members_text, seeds_text};

/// Under each sample policy a message that was withdrawn, or is held back on the day, is denied to everybody but the moderators of
/// its list, also to whoever wrote it. So what is promised of withdrawn messages, and of those held back, is promised to all of them.
pub fn the_sample_policies_hide_withheld_messages()
    ensures seeds { HidesFromAllButModerators seeds_text }
    ensures members { HidesFromAllButModerators members_text }
    ensures promised { (text : List ℕ) (ask : Ask) (reader : ReaderFacts) → HidesFromAllButModerators text
        → written_policy text ≡ Ok ask.rules → reader.standing ≢ Moderator → DeniesWithdrawn ask reader }
    ensures held_back { (text : List ℕ) (ask : Ask) (reader : ReaderFacts) (until : ℤ) → HidesFromAllButModerators text
        → written_policy text ≡ Ok ask.rules → reader.standing ≢ Moderator → int_lt ask.day until ≡ true → DeniesEmbargoed until ask reader }
{}
