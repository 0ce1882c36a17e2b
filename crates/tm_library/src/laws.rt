//! Laws of the definitions. These functions make no calls: their contracts are the laws.

ghost use Rattle.std.specs.List.{concat};
ghost use Rattle.std.specs.Prelude.{◌≡◌, ◌<◌, ◌≤◌, ◌^◌, ◌++◌, ℕ, Bool, true, List, [], Ok, length};
ghost use Rattle.tm_frame.specs.Layout.{record_length_of};
ghost use Rattle.tm_frame.specs.Rules.{IsLimit, Rules};
ghost use Rattle.tm_fields.specs.Binary.{row_length, row_octets};
ghost use Rattle.tm_fields.specs.Numbers.{bits_in};
ghost use Rattle.tm_fields.specs.Reading.{definition_of};
ghost use Rattle.tm_fields.specs.Rows.{bits_needed, row_of};
ghost use Rattle.tm_fields.specs.declared.field.Field.{Field};
ghost use Rattle.tm_fields.specs.declared.lead.Lead.{Lead};
ghost use Rattle.tm_reassembly.specs.Valid.{AllOctets};
ghost use Rattle.tm_checkpoint.specs.Works.{new_job};
ghost use Rattle.tm_output.specs.declared.command.Command.{Command};
ghost use Rattle.tm_tool.specs.Listing.{listing};
ghost use Rattle.tm_output.specs.Outputs.{line_pieces};
ghost use Rattle.tm_output.specs.Pieces.{text_of};
ghost use Rattle.tm_output.specs.Records.{records};
ghost use Rattle.tm_tool.specs.HeadPieces.{head_pieces};
ghost use Rattle.tm_tool.specs.Resuming.{run_pieces};
ghost use Rattle.tm_library.specs.declared.request.Wanted.TheVariants.{Packets, Frames};
ghost use Rattle.tm_library.specs.BinaryRows.{IsLead, text_of_row};
ghost use Rattle.tm_library.specs.Calls.{pieces_of_calls};
ghost use Rattle.tm_library.specs.Chunks.{chunk_ending};

/// Chunks: a recording is given in any chunks. The first goes to a new job. Each further one goes to the checkpoint that the call
/// before it wrote, after the octets that were left. Together they give exactly what one run gives of the whole recording, or
/// the lines of its listing. It has to have fewer than 2^32 records.
#[tactic(auto, using(crate::proofs::CallLemmas::in_one_run, crate::proofs::CallLemmas::in_one_list))]
pub fn chunks()
    ensures pieces { (command : Command) (last : Bool) (rules : Rules) (first : List ℕ) (chunks : List (List ℕ)) →
        length rules.channels ≡ 8 → IsLimit rules.max_packet → 0 < record_length_of rules.layout →
        AllOctets (records (record_length_of rules.layout) (first ++ concat chunks)) →
        length (records (record_length_of rules.layout) (first ++ concat chunks)) < 2 ^ 32 →
        pieces_of_calls (Packets command) last rules [] first chunks
        ≡ run_pieces (head_pieces command) (text_of command) (chunk_ending last) (new_job rules) (first ++ concat chunks) }
    ensures lines { (rules : Rules) (first : List ℕ) (chunks : List (List ℕ)) →
        length rules.channels ≡ 8 → IsLimit rules.max_packet → 0 < record_length_of rules.layout →
        AllOctets (records (record_length_of rules.layout) (first ++ concat chunks)) →
        length (records (record_length_of rules.layout) (first ++ concat chunks)) < 2 ^ 32 →
        pieces_of_calls Frames true rules [] first chunks ≡ line_pieces (listing rules.layout (first ++ concat chunks)) }
{}

/// Rows: the octets of a row are read back by the fields of the definition alone. Their values, printed, are the row of text: each
/// `uint` and `int` with its sign, each `float` and each `str`. All rows have one length.
#[tactic(auto, using(crate::proofs::RowLemmas::row_back, crate::proofs::SoundFields::definition_sound))]
pub fn rows()
    ensures text { (text : List ℕ) (fields : List Field) (lead : Lead) (packet : List ℕ) →
        definition_of text ≡ Ok fields → bits_needed fields ≤ bits_in packet → IsLead lead →
        text_of_row fields (row_octets fields lead packet) ≡ row_of fields lead packet }
    ensures length { (fields : List Field) (lead : Lead) (packet : List ℕ) →
        length (row_octets fields lead packet) ≡ row_length fields }
{}
