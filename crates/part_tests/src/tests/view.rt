mod fixture;
mod sharing;
mod single;
