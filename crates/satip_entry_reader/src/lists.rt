//! Lists of numbers, read from the front of a record's bytes.

ghost use Rattle.std.specs.Prelude.{◌≡◌, ◌<◌, ◌≤◌, ◌++◌, IfSome, flat_map, length};
ghost use Rattle.satip_entry_writer.specs.Fields.{u16_text, pid_list_text};
ghost use Rattle.satip_entry_reader.specs.Reading.{behind};
ghost use Rattle.satip_entry_writer.specs.Requests.{short_text};
ghost use Rattle.satip_entry_reader.specs.ReadingLists.{read_bytes, read_each, pid_read, pid_list_read, short_read};

use crate::reading::Reading;
use satip_pids::PidList;
use satip_rtsp::Short;

#[tactic(auto, unfolding(crate::specs::ReadingLists::pid_read))]
fn read_pid(bytes: &mut Reading<'_>) -> Option<u16>
    ensures read { behind result bytes.new ≡ pid_read bytes.old }
    ensures front { IfSome result (λ pid. bytes.old ≡ u16_text pid ++ bytes.new) }
    ensures below { IfSome result (λ pid. pid < 8192) }
{
    let Some(pid) = bytes.read_u16() else {
        return None;
    };
    if pid > 8191 {
        return None;
    }
    Some(pid)
}

fn read_pids(count: u16, bytes: &mut Reading<'_>) -> Option<PidList>
    requires few { count ≤ 512 }
    ensures read { behind result bytes.new ≡ read_each pid_read count bytes.old }
    ensures front { IfSome result (λ pids. bytes.old ≡ flat_map u16_text pids ++ bytes.new) }
    ensures count { IfSome result (λ pids. length pids ≡ count) }
{
    let mut pids = PidList::new();
    'pids: for place in 0..count {
        let Some(pid) = read_pid(bytes) else {
            return None;
        };
        pids.push(pid);
    }
    Some(pids)
}

/// Reads a list of PIDs. Returns None if it has more than 512, or if one isn't below 8192.
#[tactic(auto, unfolding(crate::specs::ReadingLists::pid_list_read))]
pub fn read_pid_list(bytes: &mut Reading<'_>) -> Option<PidList>
    ensures read { behind result bytes.new ≡ pid_list_read bytes.old }
    ensures front { IfSome result (λ pids. bytes.old ≡ pid_list_text pids ++ bytes.new) }
{
    let Some(count) = bytes.read_u16() else {
        return None;
    };
    if count > 512 {
        return None;
    }
    let Some(pids) = read_pids(count, bytes) else {
        return None;
    };
    Some(pids)
}

/// Reads a short text. Returns None if it has more than 128 bytes.
#[tactic(auto, unfolding(crate::specs::ReadingLists::short_read))]
pub fn read_short(bytes: &mut Reading<'_>) -> Option<Short>
    ensures read { behind result bytes.new ≡ short_read bytes.old }
    ensures front { IfSome result (λ kept. bytes.old ≡ short_text kept ++ bytes.new) }
{
    let Some(count) = bytes.read_u16() else {
        return None;
    };
    if count > 128 {
        return None;
    }
    read_kept(count, bytes)
}

// Reads `count` bytes of a text.
fn read_kept(count: u16, bytes: &mut Reading<'_>) -> Option<Short>
    requires few { count ≤ 128 }
    ensures read { behind result bytes.new ≡ read_bytes count bytes.old }
    ensures front { IfSome result (λ kept. bytes.old ≡ kept ++ bytes.new) }
    ensures count { IfSome result (λ kept. length kept ≡ count) }
{
    let Some(text) = bytes.read_bytes(count as usize) else {
        return None;
    };
    Some(Short::of(text))
}
