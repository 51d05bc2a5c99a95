//! Commands of their ring words: the header, which is not looked at, and the arguments in order.
ghost use Rattle.std.specs.Prelude.{◌≡◌, ◌<◌, length};
ghost use Rattle.gpu_word.specs.Bytes.{values_of};
ghost use Rattle.gpu_cmd.specs.Table.{argument};

use crate::command::Command;

pub fn set_bucket_size(words: &[(u32, u32)]) -> Command
    requires { 2 < length words.now }
    ensures { let a = argument (values_of words.now) in result ≡ Command.SetBucketSize (a 1) (a 2) }
{
    Command::SetBucketSize {
        bucket: words[1].1,
        size: words[2].1,
    }
}

pub fn set_bucket_data(words: &[(u32, u32)]) -> Command
    requires { 5 < length words.now }
    ensures { let a = argument (values_of words.now) in
        result ≡ Command.SetBucketData (a 1) (a 2) (a 3) (a 4) (a 5) }
{
    Command::SetBucketData {
        bucket: words[1].1,
        offset: words[2].1,
        size: words[3].1,
        memory: words[4].1,
        memory_offset: words[5].1,
    }
}

pub fn set_bucket_data_immediate(words: &[(u32, u32)]) -> Command
    requires { 3 < length words.now }
    ensures { let a = argument (values_of words.now) in
        result ≡ Command.SetBucketDataImmediate (a 1) (a 2) (a 3) }
{
    Command::SetBucketDataImmediate {
        bucket: words[1].1,
        offset: words[2].1,
        size: words[3].1,
    }
}

pub fn get_bucket_start(words: &[(u32, u32)]) -> Command
    requires { 6 < length words.now }
    ensures { let a = argument (values_of words.now) in
        result ≡ Command.GetBucketStart (a 1) (a 2) (a 3) (a 4) (a 5) (a 6) }
{
    Command::GetBucketStart {
        bucket: words[1].1,
        result_memory: words[2].1,
        result_offset: words[3].1,
        data_size: words[4].1,
        data_memory: words[5].1,
        data_offset: words[6].1,
    }
}

pub fn get_bucket_data(words: &[(u32, u32)]) -> Command
    requires { 5 < length words.now }
    ensures { let a = argument (values_of words.now) in
        result ≡ Command.GetBucketData (a 1) (a 2) (a 3) (a 4) (a 5) }
{
    Command::GetBucketData {
        bucket: words[1].1,
        offset: words[2].1,
        size: words[3].1,
        memory: words[4].1,
        memory_offset: words[5].1,
    }
}

pub fn insert_fence(words: &[(u32, u32)]) -> Command
    requires { 2 < length words.now }
    ensures { let a = argument (values_of words.now) in result ≡ Command.InsertFence (a 1) (a 2) }
{
    Command::InsertFence {
        release_low: words[1].1,
        release_high: words[2].1,
    }
}

pub fn wait_token(words: &[(u32, u32)]) -> Command
    requires { 3 < length words.now }
    ensures { let a = argument (values_of words.now) in
        result ≡ Command.WaitToken (a 1) (a 2) (a 3) }
{
    Command::WaitToken {
        stream: words[1].1,
        release_low: words[2].1,
        release_high: words[3].1,
    }
}

pub fn create_image(words: &[(u32, u32)]) -> Command
    requires { 3 < length words.now }
    ensures { let a = argument (values_of words.now) in
        result ≡ Command.CreateImage (a 1) (a 2) (a 3) }
{
    Command::CreateImage {
        image: words[1].1,
        width: words[2].1,
        height: words[3].1,
    }
}

pub fn clear_rect(words: &[(u32, u32)]) -> Command
    requires { 6 < length words.now }
    ensures { let a = argument (values_of words.now) in
        result ≡ Command.ClearRect (a 1) (a 2) (a 3) (a 4) (a 5) (a 6) }
{
    Command::ClearRect {
        image: words[1].1,
        x: words[2].1,
        y: words[3].1,
        w: words[4].1,
        h: words[5].1,
        texel: words[6].1,
    }
}

pub fn copy_rect(words: &[(u32, u32)]) -> Command
    requires { 8 < length words.now }
    ensures { let a = argument (values_of words.now) in
        result ≡ Command.CopyRect (a 1) (a 2) (a 3) (a 4) (a 5) (a 6) (a 7) (a 8) }
{
    Command::CopyRect {
        source: words[1].1,
        sx: words[2].1,
        sy: words[3].1,
        target: words[4].1,
        dx: words[5].1,
        dy: words[6].1,
        w: words[7].1,
        h: words[8].1,
    }
}

pub fn upload_rect(words: &[(u32, u32)]) -> Command
    requires { 8 < length words.now }
    ensures { let a = argument (values_of words.now) in
        result ≡ Command.UploadRect (a 1) (a 2) (a 3) (a 4) (a 5) (a 6) (a 7) (a 8) }
{
    Command::UploadRect {
        image: words[1].1,
        x: words[2].1,
        y: words[3].1,
        w: words[4].1,
        h: words[5].1,
        format: words[6].1,
        memory: words[7].1,
        memory_offset: words[8].1,
    }
}

pub fn upload_bucket(words: &[(u32, u32)]) -> Command
    requires { 7 < length words.now }
    ensures { let a = argument (values_of words.now) in
        result ≡ Command.UploadBucket (a 1) (a 2) (a 3) (a 4) (a 5) (a 6) (a 7) }
{
    Command::UploadBucket {
        image: words[1].1,
        x: words[2].1,
        y: words[3].1,
        w: words[4].1,
        h: words[5].1,
        format: words[6].1,
        bucket: words[7].1,
    }
}

pub fn create_buffer(words: &[(u32, u32)]) -> Command
    requires { 2 < length words.now }
    ensures { let a = argument (values_of words.now) in result ≡ Command.CreateBuffer (a 1) (a 2) }
{
    Command::CreateBuffer {
        buffer: words[1].1,
        size: words[2].1,
    }
}

pub fn buffer_data(words: &[(u32, u32)]) -> Command
    requires { 5 < length words.now }
    ensures { let a = argument (values_of words.now) in
        result ≡ Command.BufferData (a 1) (a 2) (a 3) (a 4) (a 5) }
{
    Command::BufferData {
        buffer: words[1].1,
        offset: words[2].1,
        size: words[3].1,
        memory: words[4].1,
        memory_offset: words[5].1,
    }
}

pub fn upload_buffer(words: &[(u32, u32)]) -> Command
    requires { 8 < length words.now }
    ensures { let a = argument (values_of words.now) in
        result ≡ Command.UploadBuffer (a 1) (a 2) (a 3) (a 4) (a 5) (a 6) (a 7) (a 8) }
{
    Command::UploadBuffer {
        image: words[1].1,
        x: words[2].1,
        y: words[3].1,
        w: words[4].1,
        h: words[5].1,
        format: words[6].1,
        buffer: words[7].1,
        offset: words[8].1,
    }
}

pub fn wait_sync_token(words: &[(u32, u32)]) -> Command
    requires { 5 < length words.now }
    ensures { let a = argument (values_of words.now) in
        result ≡ Command.WaitSyncToken (a 1) (a 2) (a 3) (a 4) (a 5) }
{
    Command::WaitSyncToken {
        namespace: words[1].1,
        id_low: words[2].1,
        id_high: words[3].1,
        release_low: words[4].1,
        release_high: words[5].1,
    }
}
