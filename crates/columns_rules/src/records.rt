// What building refuses of records in parallel columns and of labels (6 to 12), in document 01's order.
pub mod chains;
pub mod groups;
pub mod parts;
