/// A command with its arguments, in the order in which they follow the header.
///
/// A command with its arguments:
/// - images, buckets, buffers, transfer memories and result memories go by number
/// - offsets and sizes are in bytes
/// - `x`, `y`, `w`, `h` and the like are in texels; a rectangle has `w * h` of them, packed by rows without gaps
/// - a texel is `r * 2^24 + g * 2^16 + b * 2^8 + a`
/// - `format` is the number of a `gpu_word::Format`
/// - a release or an id in two halves is `low + high * 2^32`
#[derive(Clone, Copy)]
pub enum Command {
    /// Does nothing.
    Noop,
    /// Sets the stream's last token and tells its client.
    SetToken {
        token: u32,
    },
    /// Makes a bucket of `size` zero bytes, unless it has this size already.
    SetBucketSize {
        bucket: u32,
        size: u32,
    },
    /// Writes `size` bytes of a transfer memory into a bucket at `offset`.
    SetBucketData {
        bucket: u32,
        offset: u32,
        size: u32,
        memory: u32,
        memory_offset: u32,
    },
    /// Writes the first `size` bytes of the data entries, which follow in the ring, into a bucket at `offset`.
    SetBucketDataImmediate {
        bucket: u32,
        offset: u32,
        size: u32,
    },
    /// Writes a bucket's size as one word to a result memory, and up to `data_size` of its first bytes to another.
    GetBucketStart {
        bucket: u32,
        result_memory: u32,
        result_offset: u32,
        data_size: u32,
        data_memory: u32,
        data_offset: u32,
    },
    /// Writes `size` bytes of a bucket from `offset` on to a result memory.
    GetBucketData {
        bucket: u32,
        offset: u32,
        size: u32,
        memory: u32,
        memory_offset: u32,
    },
    /// Raises the stream's release count to a release.
    InsertFence {
        release_low: u32,
        release_high: u32,
    },
    /// Waits for a release of the stream of a number.
    WaitToken {
        stream: u32,
        release_low: u32,
        release_high: u32,
    },
    /// Makes an image whose texels are all 0.
    CreateImage {
        image: u32,
        width: u32,
        height: u32,
    },
    /// Takes an image away.
    DeleteImage {
        image: u32,
    },
    /// Fills a rectangle with one texel.
    ClearRect {
        image: u32,
        x: u32,
        y: u32,
        w: u32,
        h: u32,
        texel: u32,
    },
    /// Copies a rectangle of texels.
    CopyRect {
        source: u32,
        sx: u32,
        sy: u32,
        target: u32,
        dx: u32,
        dy: u32,
        w: u32,
        h: u32,
    },
    /// Writes texels from a transfer memory into a rectangle.
    UploadRect {
        image: u32,
        x: u32,
        y: u32,
        w: u32,
        h: u32,
        format: u32,
        memory: u32,
        memory_offset: u32,
    },
    /// Writes texels from a bucket's first bytes into a rectangle.
    UploadBucket {
        image: u32,
        x: u32,
        y: u32,
        w: u32,
        h: u32,
        format: u32,
        bucket: u32,
    },
    /// Makes a buffer of `size` zero bytes.
    CreateBuffer {
        buffer: u32,
        size: u32,
    },
    /// Takes a buffer away.
    DeleteBuffer {
        buffer: u32,
    },
    /// Writes `size` bytes of a transfer memory into a buffer at `offset`.
    BufferData {
        buffer: u32,
        offset: u32,
        size: u32,
        memory: u32,
        memory_offset: u32,
    },
    /// Writes texels from a buffer, from `offset` on, into a rectangle.
    UploadBuffer {
        image: u32,
        x: u32,
        y: u32,
        w: u32,
        h: u32,
        format: u32,
        buffer: u32,
        offset: u32,
    },
    /// Waits for a release of the stream of a name.
    WaitSyncToken {
        namespace: u32,
        id_low: u32,
        id_high: u32,
        release_low: u32,
        release_high: u32,
    },
}
