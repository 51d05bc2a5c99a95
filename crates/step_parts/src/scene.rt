use gpu_store::Images;
use sync_core::SyncCore;

/// The images that steps draw, and the order numbers and waits.
#[derive(Drop)]
pub struct Scene {
    /// The images.
    pub images: Images,
    /// The order numbers and waits.
    pub sync: SyncCore,
}
