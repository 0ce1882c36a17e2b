//! Laws of the definitions. These functions make no calls: their contracts are the laws.

ghost use Rattle.std.specs.Io.KnownBytes.{Appends};
ghost use Rattle.std.specs.Prelude.{◌≡◌, ◌<◌, ◌+◌, ℕ, true, List, [], ◌++◌, length};
ghost use Rattle.tm_frame.specs.declared.layout.LayoutParts.{LayoutParts};
ghost use Rattle.tm_frame.specs.Layout.{record_length_of};
ghost use Rattle.tm_frame.specs.Rules.{Rules, chooses};
ghost use Rattle.tm_packet.specs.Merge as sequence;
ghost use Rattle.tm_reassembly.specs.Items.{closing};
ghost use Rattle.tm_reassembly.specs.Valid.{IsValidState};
ghost use Rattle.tm_output.specs.declared.command.Command.{Command};
ghost use Rattle.tm_output.specs.declared.command.Ending.{Ending};
ghost use Rattle.tm_checkpoint.specs.Works.{JobState, Work};
ghost use Rattle.tm_checkpoint.specs.Checkpoints.{kept_in, work_without_master};
ghost use Rattle.tm_checkpoint.specs.declared.version.Version.TheVariants as version;
ghost use Rattle.tm_tool.specs.HeadPieces.{head_pieces};
ghost use Rattle.tm_tool.specs.Listing.{ListsAll, ListsToOnePlace};
ghost use Rattle.tm_tool.specs.NotesInAll.{NotesAsInAll, sent_among};
ghost use Rattle.tm_tool.specs.OlderVersions.{GoesOnFromKept, LacksOneGap};
ghost use Rattle.tm_tool.specs.LostGaps.{LosesFewPieces, LosesOnlyGaps};
ghost use Rattle.tm_output.specs.Pieces.{Texts, noted_all, text_of, buffering_of};
ghost use Rattle.tm_tool.specs.RecordingPieces.{JoinsPieces, items_of, worked};
ghost use Rattle.tm_output.specs.Records.{records};
ghost use Rattle.tm_tool.specs.Resuming.{GivesAsOne, no_head};
ghost use Rattle.tm_output.specs.Shelves.{Shelved, Shelves, shelf_text, shelf_buffering};
ghost use Rattle.tm_summary.specs.Lines.{summary_lines};
ghost use Rattle.tm_summary.specs.Sums.{IsBelowGreatest, counts_on};
ghost use Rattle.tm_tool.specs.SummaryNumbers.{summary_numbers};
ghost use Rattle.tm_tool.specs.Summaries.{SumsUpAll, SumsUpToOnePlace, summary};
ghost use Rattle.tm_tool.specs.Runs.{RunsOverAll, StopsAtOnePlace, StopsAtOnePlaceUnheaded};

/// Recordings that tell their octets: what `run` and `split` promise of the octets that were read holds for the whole recording.
/// With `Ok` exactly its pieces were written, down to the ending. After a fault there is one place up to which they were
/// written. `NoMemory` comes only where something was to be made in memory, or where memory was to be reserved and nothing but a head
/// was written. A refused put leaves some octets of its packet out.
/// There are more records than can be counted, or fewer than are done.
pub fn whole_recordings()
    ensures ran { (command : Command) (ending : Ending) (job : JobState)
        → RunsOverAll Appends (buffering_of command) (text_of command) ending job.work (head_pieces command job.fresh) }
    ensures stopped { (command : Command) (ending : Ending) (job : JobState)
        → StopsAtOnePlace Appends (buffering_of command) (text_of command) ending job.work (head_pieces command job.fresh) }
    ensures split_ran { (ending : Ending) (w : Work) → RunsOverAll Shelves shelf_buffering shelf_text ending w [] }
    ensures split_stopped { (ending : Ending) (w : Work)
        → StopsAtOnePlaceUnheaded Shelves shelf_buffering shelf_text ending w }
{}

/// Lists of recordings that tell their octets: what `list_frames` promises of the octets that were read holds for the whole recording. With
/// `Ok` exactly its lines were written, and the answer is the number of its whole records. After a fault there is one place up to which its
/// lines were written.
pub fn listings()
    ensures listed { (layout : LayoutParts) → ListsAll layout }
    ensures stopped { (layout : LayoutParts) → ListsToOnePlace layout }
{}

/// Joining: the pieces of two lists of records, one after the other, are those of the first, and then those of the second from
/// the work that the first leaves. So is the work that they leave.
#[tactic(auto, using(crate::proofs::Running::joins))]
pub fn joining()
    ensures pieces { (text : Texts ℕ) → JoinsPieces text }
    ensures shelved { (text : Texts Shelved) → JoinsPieces text }
    ensures work { (w : Work) (a b : List (List ℕ)) → IsValidState w.rules w.state → worked w (a ++ b) ≡ worked (worked w a) b }
{}

/// Notes: for each packet the report has the notes that its header has in the whole list of the records' headers, in their
/// order. What is kept of the sequence counts after the records is what that list leaves. The groups that are open at a closed
/// end are those that are open after the list.
pub fn notes()
    ensures pieces { (text : Texts ℕ) → NotesAsInAll text }
    ensures shelved { (text : Texts Shelved) → NotesAsInAll text }
    ensures entries { (w : Work) (rs : List (List ℕ))
        → (worked w rs).entries ≡ sequence.entries_after w.entries (sent_among (items_of w rs)) }
    ensures open { (w : Work) (rs : List (List ℕ)) (rest : ℕ) →
        noted_all (worked w rs).entries (closing (worked w rs).state rest)
        ≡ sequence.entries_after w.entries (sent_among (items_of w rs)) }
{}

/// Resumption: a new job is stopped any number of times, at the recording's end or after any number of records. Each time it is
/// written as a checkpoint and resumed from it with the same settings. Then it gives in all exactly what one run gives of the
/// last recording. That run goes down to its closed end where the last run closes it, else down to the records that are done in
/// all. Each recording has to begin with the records that are done by then, and the last has fewer than 2^32 records. This holds
/// for each command, with its head once in front, and for packets that are put on a shelf.
pub fn resumption()
    ensures run { (command : Command) → GivesAsOne (head_pieces command) (text_of command) }
    ensures split { GivesAsOne no_head shelf_text }
{}

/// Resumption across versions: the same if each checkpoint is of any version that can tell the settings, except for lines of gaps of the master
/// channel. A stop of version 1 or 2 loses the line of the gap that the first good frame after it has, if such a frame comes and has one. Nothing
/// else is lost. So each of these stops loses at most one line.
pub fn resumption_across_versions()
    ensures run { (command : Command) → LosesOnlyGaps (head_pieces command) (text_of command) }
    ensures split { LosesOnlyGaps no_head shelf_text }
    ensures few { (command : Command) → LosesFewPieces (head_pieces command) (text_of command) }
    ensures shelved_few { LosesFewPieces no_head shelf_text }
{}

/// Older versions: from an older checkpoint a job gives, in this and all further runs, what the job of the same work gives
/// without its last master channel count. The pieces of a recording from there are those from the work itself, in their order,
/// except for one line. That is the gap of the master channel at the first good frame, if one comes and has one. This holds for
/// each command, and for packets that are put on a shelf.
#[tactic(auto, using(tm_checkpoint::proofs::CheckpointLemmas::older_again))]
pub fn older_versions()
    ensures run { (command : Command) → GoesOnFromKept (head_pieces command) (text_of command) }
    ensures split { GoesOnFromKept no_head shelf_text }
    ensures kept { (w : Work) → (kept_in version.One w ≡ work_without_master w) × (kept_in version.Two w ≡ work_without_master w)
        × (kept_in version.Three w ≡ w) }
    ensures one_gap { (command : Command) → LacksOneGap (text_of command) }
    ensures shelved_gap { LacksOneGap shelf_text }
{}

/// Summaries of recordings that tell their octets: what `summarize` promises of the octets that were read holds for the whole recording. With `Ok`
/// exactly the lines of its summary were written, and the answer is the number of its whole records. After a fault there is one place up to which
/// they were written. `NoMemory` comes before all.
///
/// What adds up in a summary, where the sum is below 2^64 - 1: its lines are made of `summary_numbers`, so `sums` of `tm_summary` holds of them.
/// The good frames and the bad ones are its records. The octets of a chosen channel's packets and dropped parts, those of the closed end too, are
/// the octets of its joined data fields, without VCA and idle-only frames.
#[tactic(auto, unfolding(crate::specs::Summaries::summary, crate::specs::SummaryNumbers::summary_numbers))]
pub fn summaries()
    ensures summarized { (rules : Rules) → SumsUpAll rules }
    ensures stopped { (rules : Rules) → SumsUpToOnePlace rules }

    // What adds up.
    ensures lines { (rules : Rules) (recording : List ℕ) →
        summary rules recording
        ≡ summary_lines rules.channels (length (records (record_length_of rules.layout) recording))
        (summary_numbers rules recording) }
    ensures records { (rules : Rules) (recording : List ℕ)
        → IsBelowGreatest (length (records (record_length_of rules.layout) recording)) →
        (summary_numbers rules recording).good + (summary_numbers rules recording).bad
        ≡ length (records (record_length_of rules.layout) recording) }
    ensures data { (rules : Rules) (recording : List ℕ) (channel : ℕ) → channel < 8 → chooses rules channel ≡ true →
        IsBelowGreatest (counts_on channel (summary_numbers rules recording)).data_octets →
        (counts_on channel (summary_numbers rules recording)).octets + (counts_on channel (summary_numbers rules recording)).lost
        ≡ (counts_on channel (summary_numbers rules recording)).data_octets }
{}
