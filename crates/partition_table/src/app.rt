//! The applications that a partition table has a place for.

/// An application of the layout.
#[derive(Clone, Copy, Debug, Default, PartialEq, Eq)]
pub enum App {
    /// The application of the update slot with this number, from 0.
    Ota(u8),
    /// The application that the device was made with.
    #[default]
    Factory,
    /// The application that tests the device.
    Test,
}
