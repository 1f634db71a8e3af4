//! The description that an application carries at place 32 of its image.

ghost use Rattle.std.specs.Prelude.{◌≡◌, ◌≤◌, length};
ghost use Rattle.image_layout.specs.Description.{description_of, description_at};

use byteorder::{ByteOrder, LittleEndian};

/// What an application says of itself (ESP-IDF, `esp_app_desc_t`): the fields that this project reads.
#[derive(Clone, Copy, Debug, Default, PartialEq, Eq)]
pub struct AppDesc {
    /// The security version.
    pub secure: u32,
    /// The version, a text with zeros after it.
    pub version: [u8; 32],
    /// The project's name, a text with zeros after it.
    pub project: [u8; 32],
}

impl AppDesc {
    /// The description of an image: none where it has fewer than 112 bytes, or its mark 0xABCD5432 is not there.
    #[tactic(auto, unfolding(crate::specs::Description::has_description, crate::specs::Description::description_of))]
    pub fn read(image: &[u8]) -> Option<AppDesc>
        ensures exact { result ≡ description_of image.now }
    {
        if image.len() >= 112 && LittleEndian::read_u32(&image[32..]) == 0xABCD_5432 {
            Some(read_fields(image))
        } else {
            None
        }
    }
}

/// The fields of the description.
#[tactic(auto, unfolding(crate::specs::Description::description_at))]
fn read_fields(image: &[u8]) -> AppDesc
    requires { 112 ≤ length image.now }
    ensures { result ≡ description_at image.now }
{
    let mut version = [0; 32];
    version.copy_from_slice(&image[48..80]);
    let mut project = [0; 32];
    project.copy_from_slice(&image[80..112]);
    AppDesc {
        secure: LittleEndian::read_u32(&image[36..]),
        version,
        project,
    }
}
