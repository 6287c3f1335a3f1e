//! Laws of edits, for the crates above. None of these functions computes anything.

ghost use Rattle.ctt_edits.specs.EditLaws.{EditsKeepLawful, EditsFit, ClashIsLeast, CallFrame, PricesAscend, PatternFaultStands, SlotPriceStands, SlotPriceIsLeast, SlotFaultStands, SlotFaultIsLast, SlotsOffer, CheapestIsLeastOffer, PatternReads, ReadsAscend, RepliesFit, EditIsTable, OpeningIsLawful, OpeningFaultsFit, RoomsDetermine};

/// States that an edit without a fault keeps a timetable lawful.
pub fn edits_keep_lawful()
    ensures { EditsKeepLawful }
{}

/// States that the change of an edit without a fault fits.
pub fn edits_fit()
    ensures { EditsFit }
{}

/// States that if a lecture cannot be placed because of a clash, the fault names the
/// lowest-numbered clashing course with a lecture in the slot.
pub fn clash_is_least()
    ensures { ClashIsLeast }
{}

/// States that the reply to a call, and what the call changes, depend only on the rows that it
/// reads.
pub fn call_frame()
    ensures { CallFrame }
{}

/// States that the order by price is a stable sort: prices ascend, and edits of equal price are
/// those of the list, in its order.
pub fn prices_ascend()
    ensures { PricesAscend }
{}

/// States that if a pattern has a fault, each of its edits is refused.
pub fn pattern_fault_stands()
    ensures { PatternFaultStands }
{}

/// States that the price that a slot offers is that of an edit to the slot that is accepted.
pub fn slot_price_stands()
    ensures { SlotPriceStands }
{}

/// States that no edit to a slot that is accepted is cheaper than the price that the slot offers.
pub fn slot_price_is_least()
    ensures { SlotPriceIsLeast }
{}

/// States that the fault that a slot offers is that of an edit to the slot.
pub fn slot_fault_stands()
    ensures { SlotFaultStands }
{}

/// States that if a slot offers a fault, each edit to the slot is refused, for a fault that comes
/// no later in the order in which faults are looked for.
pub fn slot_fault_is_last()
    ensures { SlotFaultIsLast }
{}

/// States that each slot offers a price or a fault, if the instance has a room.
pub fn slots_offer()
    ensures { SlotsOffer }
{}

/// States that the cheapest edit of a pattern has the least price that a slot offers, and that
/// there is none if no slot offers a price.
pub fn cheapest_is_least_offer()
    ensures { CheapestIsLeastOffer }
{}

/// States that a look at the cheapest edits of a pattern reads exactly the rows that the prices of
/// its edits read, if the instance has a room and a slot.
pub fn pattern_reads()
    ensures { PatternReads }
{}

/// States that the rows that a call reads ascend, each once.
pub fn reads_ascend()
    ensures { ReadsAscend }
{}

/// States that the reply to a call on a lawful timetable fits: its numbers are those of the
/// instance, each cost and each absolute price is at most 9,223,372,036,854,775,807, and its lists
/// have at most 999,999,999 elements.
pub fn replies_fit()
    ensures { RepliesFit }
{}

/// States that the fault and the change of an edit give the outcome that the table of edits defines
/// by trials.
pub fn edit_is_table()
    ensures { EditIsTable }
{}

/// States that the timetable made by placing the lectures of a list in order is lawful.
pub fn opening_is_lawful()
    ensures { OpeningIsLawful }
{}

/// States that if the fault of the first lecture of a list that cannot be placed names a course, it
/// is one of the instance.
pub fn opening_faults_fit()
    ensures { OpeningFaultsFit }
{}

/// States that two timetables of one instance are equal if they have the same room, or none, for
/// each course in each slot.
pub fn rooms_determine()
    ensures { RoomsDetermine }
{}
