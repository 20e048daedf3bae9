//! Three models as rows of names: two ways to one goal, a graph of roads, and a delivery by truck.

/// The lists of a model. Entries have a comma between them, and schemas a semicolon. A type or an
/// object comes before its type, and a predicate, a function or an action before the types of its
/// parameters. A schema is its preconditions, adds, deletes and cost.
#[derive(Clone, Copy)]
pub struct Rows {
    pub types: &'static str,
    pub objects: &'static str,
    pub predicates: &'static str,
    pub functions: &'static str,
    pub actions: &'static str,
    pub init: &'static str,
    pub goal: &'static str,
    pub schemas: &'static str,
    pub values: &'static str,
    pub unknown: &'static str,
}

/// Two ways to (g): walk needs (p) and costs 2, jump needs (q) and costs 1.
pub const WAYS: Rows = Rows {
    types: "object object",
    objects: "",
    predicates: "p, q, g",
    functions: "",
    actions: "walk, jump",
    init: "p",
    goal: "g",
    schemas: "p / g / / 2; q / g / / 1",
    values: "",
    unknown: "",
};

/// From a over b to c. Going costs what the road costs, and riding from a to c costs 10. (link ..)
/// is declared before (at ..).
pub const ROADS: Rows = Rows {
    types: "object object",
    objects: "a object, b object, c object",
    predicates: "link object object, at object",
    functions: "road object object",
    actions: "go object object, ride",
    init: "at a, link a b, link b c",
    goal: "at c",
    schemas: "link ?1 ?2, at ?1 / at ?2 / at ?1 / road ?1 ?2; at a / at c / / 10",
    values: "road a b = 2, road b c = 9",
    unknown: "",
};

/// A parcel is to come from the hub to the mill by truck. Types come before and after the types
/// above them.
pub const DELIVERY: Rows = Rows {
    types: "object object, truck thing, thing object, parcel thing, depot place, place object, \
        shop place",
    objects: "hub depot, t1 truck, k1 parcel, mill shop, north shop",
    predicates: "at thing place, in parcel truck, road place place",
    functions: "road-length place place",
    actions: "drive truck place place, load parcel truck place, unload parcel truck place",
    init: "at t1 hub, at k1 hub, road hub mill, road mill hub, road hub north",
    goal: "at k1 mill",
    schemas: "at ?1 ?2, road ?2 ?3 / at ?1 ?3 / at ?1 ?2 / road-length ?2 ?3; \
        at ?1 ?3, at ?2 ?3 / in ?1 ?2 / at ?1 ?3 / 1; in ?1 ?2, at ?2 ?3 / at ?1 ?3 / in ?1 ?2 / 1",
    values: "road-length hub mill = 5, road-length mill hub = 5, road-length hub north = 1, \
        road-length north mill = 1",
    unknown: "",
};
