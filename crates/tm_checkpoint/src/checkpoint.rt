//! The checkpoint of a job: written, and read again.

ghost use Rattle.std.specs.Prelude.{◌≡◌, ◌≢◌, ◌⊎◌, ◌≤◌, ◌<◌, ◌+◌, ◌*◌, ◌^◌, IfOk, IfErr, IsErrOf, IsOk, OnOk, Ok, Err, false, length};
ghost use Rattle.tm_frame.specs.declared.layout.Presence.{Presence};
ghost use Rattle.tm_packet.specs.Spelling as sequence;
ghost use Rattle.tm_reassembly.specs.declared.fault.StateFault.TheVariants as found;
ghost use Rattle.tm_frame.specs.Rules.{IsLimit, Rules};
ghost use Rattle.tm_reassembly.specs.State.{State};
ghost use Rattle.tm_reassembly.specs.Checkpoint.{spelled_octets};
ghost use Rattle.tm_reassembly.specs.Steps.{progress_in};
ghost use Rattle.tm_checkpoint.specs.declared.version.Version.TheVariants as version;
ghost use Rattle.tm_checkpoint.specs.Works.{IsGoing, IsWork, work_of};
ghost use Rattle.tm_checkpoint.specs.Checkpoints.{AsksMemory, checkpoint_of, check_holds, form_of, version_in, head_octets, inner, job_of, presence_octet, resumed, says_settings, settings_octets, state_in, tells, three_octets, with_check, with_entries};

use crate::version::Version;
use std::alloc::{AllocError, Global};
use tm_bits::two_at;
use tm_faults::{CheckpointFault, NoMemory};
use tm_frame::{Layout, Presence, error_control};
use tm_packet::{Tracker, TrackerFault};
use tm_reassembly::{Channels, Reassembly, StateFault};
use tm_settings::Settings;

// The letters TMXC, with which a checkpoint begins.
const MAGIC: [u8; 4] = [0x54, 0x4D, 0x58, 0x43];

/// The checkpoint of a job. First come the letters TMXC, the version 3, and the settings in fifteen octets. Then come the state
/// of the channels and the sequence counts, as `Reassembly::encode` and `Tracker::encode` write them. Last comes the error
/// control of all these. No step of the reassembly was refused.
///
/// # Errors
///
/// `NoMemory` where there is no room for the octets.
pub fn write_checkpoint(
    alloc: Global,
    reassembly: &Reassembly,
    tracker: &Tracker,
) -> Result<Vec<u8>, NoMemory>
    requires { reassembly.now.failed ≡ false }
    ensures octets { IfOk result (λ octets. octets.items ≡ checkpoint_of (work_of reassembly.now tracker.now)) }
    ensures valid { IfOk result (λ octets. IsWork (work_of reassembly.now tracker.now)) }
{
    prove!(!reassembly.failed());
    let layout = reassembly.layout();
    let channels = reassembly.channels();
    let max_packet = reassembly.max_packet();
    let Ok(mut octets) = write_head(alloc, layout, channels, max_packet) else {
        return Err(NoMemory);
    };
    let Ok(()) = reassembly.encode(&mut octets) else {
        return Err(NoMemory);
    };
    let Ok(()) = tracker.encode(&mut octets) else {
        return Err(NoMemory);
    };
    match push_check(&mut octets) {
        Ok(()) => Ok(octets),
        Err(_) => Err(NoMemory),
    }
}

/// The work of the job that these octets say. They were written with the same settings, in version 3 or in one of the older
/// versions 1 and 2. Version 1 has no limit on packets in its settings: it stands for the greatest, 65,542. A job from an older
/// version has no last master channel count, so its first good frame has no gap of the master channel. Room is reserved as
/// `Reassembly::new` and `Tracker::new` do.
///
/// # Errors
///
/// What is wrong first, in this order. `Short` where there are fewer than 33 octets. `Magic` where they don't begin with TMXC. `Version`
/// where the fifth is none of 1, 2 and 3. `Short` where there are fewer than 36 in version 2, or 37 in version 3. `Check` where the last two
/// aren't the error control of those before. `Settings` where they were written with other settings. `State` where `Reassembly::decode`
/// refuses them, or `Reassembly::decode_old` in an older version, or `Tracker::decode` the octets after those. `Trailing` where octets are
/// left over. `NoMemory` comes at the earliest after the checks of the state.
#[tactic(auto, using(std::proofs::lemmas::Grind::common_steps, std::proofs::lemmas::List::take_all), unfolding(crate::specs::Checkpoints::resumed))]
pub fn read_checkpoint(
    alloc: Global,
    settings: &Settings,
    octets: &[u8],
) -> Result<(Reassembly, Tracker), CheckpointFault>
    ensures ok { IfOk result (λ read. resumed settings.now octets.now
        ≡ Ok (record { work = work_of read.0 read.1; fresh = false })) }
    ensures going { IfOk result (λ read. IsGoing read.0) }
    ensures refused { IfErr result (λ found. found ≢ CheckpointFault.NoMemory → resumed settings.now octets.now ≡ Err found) }
    ensures memory { IsErrOf result CheckpointFault.NoMemory ⊎ IsOk result → AsksMemory settings.now octets.now }
{
    let version = match version_in(settings, octets) {
        Ok(version) => version,
        Err(fault) => return Err(fault),
    };
    let inner = inner(version, octets);
    let Ok(read) = check_state(settings, version, inner) else {
        return Err(CheckpointFault::State);
    };

    // The tracker is made before the tails: glibc keeps the pages of what is taken first, for the next job.
    let tracker = match read_entries(alloc, &inner[read..]) {
        Ok(tracker) => tracker,
        Err(fault) => return Err(fault),
    };
    match decode_state(alloc, settings, version, inner) {
        Ok((reassembly, _)) => {
            prove!(!reassembly.failed());
            Ok((reassembly, tracker))
        }
        Err(_) => Err(CheckpointFault::NoMemory),
    }
}

// The octets before the state, in the version that is written.
fn write_head(
    alloc: Global,
    layout: Layout,
    channels: Channels,
    max_packet: u32,
) -> Result<Vec<u8>, AllocError>
    requires { IsLimit max_packet }
    ensures { IfOk result (λ head. head.items
        ≡ head_octets version.Three (record { layout = layout; channels = channels; max_packet = max_packet })) }
{
    let mut head = Vec::from_slice(alloc, &MAGIC)?;
    head.push(Version::Three.form().octet)?;
    head.extend_from_slice(&settings_octets(layout, channels, max_packet))?;
    Ok(head)
}

// Appends the error control of all octets.
fn push_check(octets: &mut Vec<u8>) -> Result<(), AllocError>
    ensures { OnOk result (octets.new.items ≡ with_check octets.old.items) }
{
    let check = error_control(octets);
    octets.extend_from_slice(&check.to_be_bytes())
}

// A number in three octets.
fn three_octets(number: u32) -> [u8; 3]
    requires { number < 2 ^ 24 }
    ensures { result ≡ three_octets number }
{
    let low = ((number % 65536) as u16).to_be_bytes();
    [(number / 65536) as u8, low[0], low[1]]
}

/// The settings in fifteen octets.
pub(crate) fn settings_octets(layout: Layout, channels: Channels, max_packet: u32) -> [u8; 15]
    requires { IsLimit max_packet }
    ensures { result ≡ settings_octets (record { layout = layout; channels = channels; max_packet = max_packet }) }
{
    let parts = layout.parts();
    let spacecraft = (parts.spacecraft as u16).to_be_bytes();
    let frame_length = (parts.frame_length as u16).to_be_bytes();
    let skip_before = (parts.skip_before as u16).to_be_bytes();
    let skip_after = (parts.skip_after as u16).to_be_bytes();
    let limit = three_octets(max_packet);
    [
        spacecraft[0],
        spacecraft[1],
        frame_length[0],
        frame_length[1],
        skip_before[0],
        skip_before[1],
        skip_after[0],
        skip_after[1],
        presence_octet(parts.secondary),
        presence_octet(parts.ocf),
        u8::from(parts.error_control),
        channels.mask(),
        limit[0],
        limit[1],
        limit[2],
    ]
}

// A word of the settings in an octet.
fn presence_octet(presence: Presence) -> u8
    ensures { result ≡ presence_octet presence }
{
    match presence {
        Presence::Flag => 0,
        Presence::Always => 1,
        Presence::Never => 2,
    }
}

// The version, or what is wrong first around the state and the entries.
#[tactic(auto, unfolding(crate::specs::Checkpoints::version_in))]
fn version_in(settings: &Settings, octets: &[u8]) -> Result<Version, CheckpointFault>
    ensures value { result ≡ version_in settings.now octets.now }
    ensures memory { result ≢ Err CheckpointFault.NoMemory }
    ensures long { IfOk result (λ v. (form_of v).least ≤ length octets.now) }
{
    if octets.len() < 33 {
        return Err(CheckpointFault::Short);
    }
    if &octets[..4] != MAGIC.as_slice() {
        return Err(CheckpointFault::Magic);
    }
    let Some(version) = Version::of(octets[4]) else {
        return Err(CheckpointFault::Version);
    };
    if octets.len() < version.form().least {
        return Err(CheckpointFault::Short);
    }
    if !check_holds(octets) {
        return Err(CheckpointFault::Check);
    }
    if !says_settings(version, settings, octets) {
        return Err(CheckpointFault::Settings);
    }
    Ok(version)
}

// Whether settings can be told in a version: version 1 stands for the greatest limit on packets.
fn tells(version: Version, settings: &Settings) -> bool
    ensures { result ≡ tells version settings.now }
{
    match version {
        Version::One => settings.max_packet() == 65542,
        Version::Two | Version::Three => true,
    }
}

// Whether the settings are those that the octets of a version tell.
fn says_settings(version: Version, settings: &Settings, octets: &[u8]) -> bool
    requires { (form_of version).least ≤ length octets.now }
    ensures { result ≡ says_settings version settings.now octets.now }
{
    let length = version.form().settings;
    let written = settings_octets(
        settings.layout(),
        settings.channels(),
        settings.max_packet(),
    );
    tells(version, settings) && &octets[5..5 + length] == &written[..length]
}

// The last two octets are the error control of those before.
fn check_holds(octets: &[u8]) -> bool
    requires { 2 ≤ length octets.now }
    ensures { result ≡ check_holds octets.now }
{
    let end = octets.len() - 2;
    two_at(octets, end) == error_control(&octets[..end])
}

// The octets between the settings and the check.
fn inner(version: Version, octets: &[u8]) -> &[u8]
    requires { (form_of version).least ≤ length octets.now }
    ensures { result.now ≡ inner version octets.now }
{
    let begin = 5 + version.form().settings;
    &octets[begin..octets.len() - 2]
}

// Checks the state at the front of octets in the form of a version. Answers how many of them it has.
#[tactic(auto, using(crate::proofs::VersionLemmas::spelled_inside))]
fn check_state(settings: &Settings, version: Version, octets: &[u8]) -> Result<usize, StateFault>
    ensures value { result ≡ spelled_octets (state_in version settings.now octets.now) }
    ensures inside { IfOk result (λ read. read ≤ length octets.now) }
{
    Reassembly::check(
        settings.layout(),
        settings.channels(),
        settings.max_packet(),
        version.form().with_master,
        octets,
    )
}

// The state at the front of octets in the form of a version, and how many of them it has.
fn decode_state(
    alloc: Global,
    settings: &Settings,
    version: Version,
    octets: &[u8],
) -> Result<(Reassembly, usize), StateFault>
    ensures ok { IfOk result (λ read. state_in version settings.now octets.now
        ≡ Ok (record { state = read.0.state; octets = read.1 })) }
    ensures same { IfOk result (λ read. read.0 ≡ progress_in settings.now read.0.state) }
    ensures refused { IfErr result (λ fault. (state_in version settings.now octets.now ≡ Err fault)
        ⊎ ((fault ≡ found.NoMemory) × IsOk (state_in version settings.now octets.now))) }
{
    let layout = settings.layout();
    let channels = settings.channels();
    let max_packet = settings.max_packet();
    if version.form().with_master {
        Reassembly::decode(alloc, layout, channels, max_packet, octets)
    } else {
        Reassembly::decode_old(alloc, layout, channels, max_packet, octets)
    }
}

// The entries that these octets are.
fn read_entries(alloc: Global, octets: &[u8]) -> Result<Tracker, CheckpointFault>
    ensures ok { IfOk result (λ entries. (settings : Rules) (state : State) →
        with_entries settings state (length octets.now) (sequence.entries_decoding_of octets.now)
        ≡ Ok (job_of settings state entries)) }
    ensures refused { IfErr result (λ found. found ≢ CheckpointFault.NoMemory → (settings : Rules) (state : State) →
        with_entries settings state (length octets.now) (sequence.entries_decoding_of octets.now) ≡ Err found) }
{
    match Tracker::decode(alloc, octets) {
        Ok((tracker, read)) => {
            if read < octets.len() {
                return Err(CheckpointFault::Trailing);
            }
            Ok(tracker)
        }
        Err(TrackerFault::NoMemory) => Err(CheckpointFault::NoMemory),
        Err(_) => Err(CheckpointFault::State),
    }
}
