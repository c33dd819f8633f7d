use ttm_base::{BufId, ItemList, PagePlace};

/// The names that packets use for the pages of a buffer, page after page.
pub type PagePlaces = ItemList<PagePlace>;

/// A buffer, and the names that packets use for its pages.
#[derive(Drop)]
pub struct PlaceRow {
    pub b: BufId,
    pub pages: PagePlaces,
}

/// The buffers of a job, each with the names of its pages.
pub type PlaceMap = ItemList<PlaceRow>;
