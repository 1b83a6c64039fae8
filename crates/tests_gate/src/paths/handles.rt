//! The handles of one session, in the order of its frames.

use link_table::Handles;
use std::alloc::Global;
use wire_base::Memory;

/// What is answered of the handles of two links:
///
/// - The handle that is free: first, where one link is allowed, and once a link is gone.
/// - Whether an attach of the container was taken: one of each link, and between them one whose handle
///   has a link.
/// - The link of a handle of the container, and of one that it didn't use.
/// - The link of the first, while it goes, and once it is gone.
type Handled = (
    [Option<u32>; 3],
    [bool; 3],
    [Option<u32>; 2],
    [Option<u32>; 2],
);

/// Two links come, and one goes. The container may not use one handle for two links.
pub fn handle_two_links(alloc: Global) -> Result<Handled, Memory> {
    let mut handles = Handles::new(alloc, 2)?;
    let free = handles.free();
    handles.attach(0);
    handles.attach(1);
    let first = handles.attached(0, 7);
    let same = handles.attached(1, 7);
    let second = handles.attached(1, 5);
    let named = [handles.of_peer(7), handles.of_peer(0)];
    handles.limit(1);
    let limited = handles.free();
    handles.detach_sent(0);
    let sent = handles.of_peer(7);
    handles.detach_read(0);
    let going = [sent, handles.of_peer(7)];
    let free = [free, limited, handles.free()];
    Ok((free, [first, same, second], named, going))
}
