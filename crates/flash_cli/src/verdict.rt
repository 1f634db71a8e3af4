//! A flash of which an application was confirmed or rejected.

use partition_table::App;

/// A flash of which an application was confirmed or rejected: which one, how many steps were made,
/// and the flash that they leave.
#[derive(Drop)]
pub(crate) struct Judged {
    pub(crate) app: App,
    pub(crate) steps: u32,
    pub(crate) flash: Vec<u8>,
}
