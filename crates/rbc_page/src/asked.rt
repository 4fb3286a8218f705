//! What is asked for.

/// What a path names.
#[derive(Clone, Copy)]
pub enum Resource {
    /// `/`: the viewer.
    Viewer,
    /// `/track`: the lines of the track.
    Track,
    /// `/scene`: the lines of the newest scene that is published.
    Scene,
    /// `/history`: the lines of the history of that scene.
    History,
    /// `/metrics`: what was counted.
    Metrics,
    /// `/health`: that the centre answers.
    Health,
}

/// A request that is answered.
#[derive(Clone, Copy)]
pub struct Asked {
    /// What its path names.
    pub page: Resource,
    /// How many entries the scene's history is to have at least, if it says so.
    pub after: Option<u64>,
    /// From which place on the entries of the history are asked for; 0 for other pages.
    pub from: u64,
    /// The version that the client has, if its tag is one of this centre.
    pub known: Option<u64>,
    /// Whether only the head of the answer is asked for.
    pub is_head: bool,
    /// Whether the client may ask again over its connection.
    pub stays: bool,
}
