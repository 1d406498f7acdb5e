//! What holds of items over whole runs, whatever is answered.

ghost use Rattle.item_graph.specs.Laws as law;

/// Whatever an item has heard is the front of a route of its walk, and what it asks is the next of that; where it has
/// ended, it is the whole route, and its end is the route's.
pub fn items_walk_routes()
    ensures stand { law.ItemsStandInRoutes }
    ensures ended { law.ItemsEndInRoutes }
    ensures walks { law.PointsEndInRoutes }
{}

/// Over the answers of a mirror, with none missing, an item ends as its file is obtained from that mirror.
pub fn items_end_as_obtained()
    ensures lists { law.ItemsEndAsObtained }
    ensures releases { law.ReleaseItemsEndAsObtained }
{}
