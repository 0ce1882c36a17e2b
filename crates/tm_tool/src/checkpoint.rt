//! The checkpoint of a job: written, and read again.

ghost use Rattle.std.specs.Prelude.{◌≡◌, ◌≢◌, ◌≤◌, ◌+◌, ◌*◌, IfOk, IfErr, IsErrOf, Ok, Err, false, length};
ghost use Rattle.tm_checkpoint.specs.Checkpoints.{AsksMemory, checkpoint_of, resumed};
ghost use Rattle.tm_checkpoint.specs.Works.{IsWork};

use crate::extractor::Extractor;
use crate::{CheckpointFault, Job, NoMemory, Settings};
use std::alloc::Global;
use tm_checkpoint::{read_checkpoint, write_checkpoint};

impl Job {
    /// The job in octets, at most 98,374 and eight times as many as a packet may have, so at most 622,710. First come the letters
    /// TMXC, the version 3, and the settings in fifteen octets. Then come the state of the channels and the sequence counts, as
    /// `Reassembly::encode` and `Tracker::encode` write them. Last comes the error control of all these.
    ///
    /// # Errors
    ///
    /// `NoMemory` where there is no room for them.
    #[tactic(auto, using(tm_checkpoint::proofs::CheckpointLemmas::bound, tm_checkpoint::proofs::CheckpointLemmas::most))]
    pub fn checkpoint(&self, alloc: Global) -> Result<Vec<u8>, NoMemory>
        ensures octets { IfOk result (λ octets. octets.items ≡ checkpoint_of self.now.work) }
        ensures bound { IfOk result (λ octets. length octets.items ≤ 98374 + 8 * self.now.work.rules.max_packet) }
        ensures most { IfOk result (λ octets. length octets.items ≤ 622710) }
        ensures valid { IfOk result (λ octets. IsWork self.now.work) }
    {
        write_checkpoint(alloc, &self.extractor.reassembly, &self.extractor.tracker)
    }

    /// The job that these octets say. They were written with the same settings, in version 3 or in one of the older versions 1
    /// and 2. The job isn't fresh. Room is reserved as `new` does. Version 1 has no limit on packets in its settings: it stands
    /// for the greatest, 65,542. A job from an older version has no last master channel count, so its first good frame has no
    /// gap of the master channel.
    ///
    /// # Errors
    ///
    /// As `read_checkpoint` of the crate `tm_checkpoint`: what is wrong first. `NoMemory` comes at the earliest after the checks of the state.
    pub fn resume(alloc: Global, settings: &Settings, octets: &[u8]) -> Result<Job, CheckpointFault>
        ensures ok { IfOk result (λ job. resumed settings.now octets.now ≡ Ok job) }
        ensures refused { IfErr result (λ found. found ≢ CheckpointFault.NoMemory → resumed settings.now octets.now ≡ Err found) }
        ensures memory { IsErrOf result CheckpointFault.NoMemory → AsksMemory settings.now octets.now }
    {
        let (reassembly, tracker) = match read_checkpoint(alloc, settings, octets) {
            Ok(read) => read,
            Err(fault) => return Err(fault),
        };
        match Extractor::new(alloc, reassembly, tracker) {
            Ok(extractor) => Ok(Job {
                extractor,
                fresh: false,
            }),
            Err(_) => Err(CheckpointFault::NoMemory),
        }
    }
}
