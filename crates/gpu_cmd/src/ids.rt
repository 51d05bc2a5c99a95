//! The ids of the commands, as a header carries them.

pub const NOOP: u32 = 0;

pub const SET_TOKEN: u32 = 1;

pub const SET_BUCKET_SIZE: u32 = 2;

pub const SET_BUCKET_DATA: u32 = 3;

pub const SET_BUCKET_DATA_IMMEDIATE: u32 = 4;

pub const GET_BUCKET_START: u32 = 5;

pub const GET_BUCKET_DATA: u32 = 6;

pub const INSERT_FENCE: u32 = 256;

pub const WAIT_TOKEN: u32 = 257;

pub const CREATE_IMAGE: u32 = 258;

pub const DELETE_IMAGE: u32 = 259;

pub const CLEAR_RECT: u32 = 260;

pub const COPY_RECT: u32 = 261;

pub const UPLOAD_RECT: u32 = 262;

pub const UPLOAD_BUCKET: u32 = 263;

pub const CREATE_BUFFER: u32 = 264;

pub const DELETE_BUFFER: u32 = 265;

pub const BUFFER_DATA: u32 = 266;

pub const UPLOAD_BUFFER: u32 = 267;

pub const WAIT_SYNC_TOKEN: u32 = 268;
