//! Laws of mended solutions, each the contract of a function that computes nothing.

ghost use Rattle.ctt_commands.specs.MendLaws.{MendedOpens, NoneIsSetAside};

/// States that a desk opens with the lectures that remain of a timetable, and begins with these.
pub fn mended_opens()
    ensures { MendedOpens }
{}

/// States that of lectures that open a desk none is set aside, and all remain, in their order.
pub fn none_is_set_aside()
    ensures { NoneIsSetAside }
{}
