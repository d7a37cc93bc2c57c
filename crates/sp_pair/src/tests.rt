mod choosing;
mod compacting;
mod files;
