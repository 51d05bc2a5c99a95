use gpu_store::Images;

/// The images after a number of events.
#[derive(Drop)]
pub struct Version {
    pub images: Images,
    pub events: u32,
}
