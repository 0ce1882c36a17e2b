//! Laws of the definitions. This function makes no calls: its contract is the laws.

ghost use Rattle.std.specs.Prelude.{◌≡◌, ◌≤◌, ◌+◌, ◌*◌, ℕ, true, false, Ok, List, [], ◌++◌, length};
ghost use Rattle.tm_bits.specs.Bits.{AreOctets};
ghost use Rattle.tm_frame.specs.Rules.{IsLimit, Rules};
ghost use Rattle.tm_checkpoint.specs.Checkpoints.{checkpoint_of, kept_in, resumed, spelled_in, tells};
ghost use Rattle.tm_checkpoint.specs.Works.{IsWork, JobState, Work};
ghost use Rattle.tm_checkpoint.specs.declared.version.Version.{Version};

/// Checkpoints: what is written is read again, with the same settings, as the same work, and the job isn't fresh. The same holds
/// for the older versions, if they can tell the settings, except that the last master channel count is lost. Octets that are
/// read are a checkpoint, in some version, of the work that they are read as. That work has these settings, is valid, and has
/// what that version keeps. So with settings of eight channels exactly the checkpoints of valid works with these settings are
/// read. No checkpoint is a proper prefix of another, whatever their versions and settings are. What is written has at most
/// 98,374 octets and eight times as many as a packet may have, so at most 622,710.
pub fn checkpoints()
    ensures read_again { (w : Work) → IsWork w → resumed w.rules (checkpoint_of w) ≡ Ok (record { work = w; fresh = false }) }
    ensures older_again { (v : Version) (w : Work) → IsWork w → tells v w.rules ≡ true →
        resumed w.rules (spelled_in v w) ≡ Ok (record { work = kept_in v w; fresh = false }) }
    ensures written_again { (settings : Rules) (octets : List ℕ) (job : JobState) → AreOctets octets
        → resumed settings octets ≡ Ok job →
        (v : Version) × (octets ≡ spelled_in v job.work) × (tells v settings ≡ true) × (kept_in v job.work ≡ job.work)
        × (job.work.rules ≡ settings) × (job.fresh ≡ false) }
    ensures valid { (settings : Rules) (octets : List ℕ) (job : JobState) → length settings.channels ≡ 8
        → IsLimit settings.max_packet →
        AreOctets octets → resumed settings octets ≡ Ok job → IsWork job.work }
    ensures no_prefix { (u v : Version) (a b : Work) (rest : List ℕ) → IsWork a → IsWork b → tells u a.rules ≡ true
        → tells v b.rules ≡ true →
        spelled_in u a ++ rest ≡ spelled_in v b → (u ≡ v) × (kept_in u a ≡ kept_in v b) × (rest ≡ []) }
    ensures bound { (w : Work) → IsWork w → length (checkpoint_of w) ≤ 98374 + 8 * w.rules.max_packet }
    ensures most { (w : Work) → IsWork w → length (checkpoint_of w) ≤ 622710 }
{}
