// What building refuses of a granule: its rows (14) and its spans (15).
pub mod groups;
pub mod reach;
