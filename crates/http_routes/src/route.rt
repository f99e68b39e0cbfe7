//! The table of routes.
ghost use Rattle.std.specs.Prelude.{◌≡◌};
ghost use Rattle.http_routes.specs.Table.{flow_part_methods, flow_part_text, method_list, methods_of, route_text, source_part_methods, source_part_text};

use crate::methods::Methods;

/// A route: what paths of one shape name. It is our own profile of the Time-addressable Media Store.
#[derive(Clone, Copy, Debug, PartialEq, Eq)]
pub enum Route {
    Root,
    Service,
    Hooks,
    Sources,
    Source,
    SourcePart(SourcePart),
    Flows,
    Flow,
    FlowPart(FlowPart),
    Segments,
    Storage,
    Object,
    Requests,
    Request,
    Media,
}

/// A part of a source: all its tags, the tag of a name, or a text.
#[derive(Clone, Copy, Debug, PartialEq, Eq)]
pub enum SourcePart {
    Tags,
    Tag,
    Label,
    Description,
}

/// A part of a flow.
#[derive(Clone, Copy, Debug, PartialEq, Eq)]
pub enum FlowPart {
    Tags,
    Tag,
    Label,
    Description,
    ReadOnly,
    Collection,
    MaxBitRate,
    AvgBitRate,
}

impl Route {
    /// The text of the route, with its parts in braces.
    pub(crate) fn text(self) -> &'static str
        ensures { result.now ≡ route_text self }
    {
        match self {
            Route::Root => "/",
            Route::Service => "/service",
            Route::Hooks => "/service/webhooks",
            Route::Sources => "/sources",
            Route::Source => "/sources/{id}",
            Route::SourcePart(part) => part.text(),
            Route::Flows => "/flows",
            Route::Flow => "/flows/{id}",
            Route::FlowPart(part) => part.text(),
            Route::Segments => "/flows/{id}/segments",
            Route::Storage => "/flows/{id}/storage",
            Route::Object => "/objects/{object_id}",
            Route::Requests => "/flow-delete-requests",
            Route::Request => "/flow-delete-requests/{request_id}",
            Route::Media => "/media/{object_id}",
        }
    }

    /// The methods that the route has.
    pub fn methods(self) -> Methods
        ensures { method_list result ≡ methods_of self }
    {
        match self {
            Route::Root
            | Route::Service
            | Route::Sources
            | Route::Source
            | Route::Flows
            | Route::Object
            | Route::Requests
            | Route::Request => Methods::GetHead,
            Route::Hooks => Methods::GetHeadPost,
            Route::SourcePart(part) => part.methods(),
            Route::Flow => Methods::GetHeadPutDelete,
            Route::FlowPart(part) => part.methods(),
            Route::Segments => Methods::GetHeadPostDelete,
            Route::Storage => Methods::Post,
            Route::Media => Methods::GetHeadPut,
        }
    }
}

impl SourcePart {
    fn text(self) -> &'static str
        ensures { result.now ≡ source_part_text self }
    {
        match self {
            SourcePart::Tags => "/sources/{id}/tags",
            SourcePart::Tag => "/sources/{id}/tags/{name}",
            SourcePart::Label => "/sources/{id}/label",
            SourcePart::Description => "/sources/{id}/description",
        }
    }

    fn methods(self) -> Methods
        ensures { method_list result ≡ source_part_methods self }
    {
        match self {
            SourcePart::Tags => Methods::GetHead,
            SourcePart::Tag | SourcePart::Label | SourcePart::Description => {
                Methods::GetHeadPutDelete
            }
        }
    }
}

impl FlowPart {
    fn text(self) -> &'static str
        ensures { result.now ≡ flow_part_text self }
    {
        match self {
            FlowPart::Tags => "/flows/{id}/tags",
            FlowPart::Tag => "/flows/{id}/tags/{name}",
            FlowPart::Label => "/flows/{id}/label",
            FlowPart::Description => "/flows/{id}/description",
            FlowPart::ReadOnly => "/flows/{id}/read_only",
            FlowPart::Collection => "/flows/{id}/flow_collection",
            FlowPart::MaxBitRate => "/flows/{id}/max_bit_rate",
            FlowPart::AvgBitRate => "/flows/{id}/avg_bit_rate",
        }
    }

    fn methods(self) -> Methods
        ensures { method_list result ≡ flow_part_methods self }
    {
        match self {
            FlowPart::Tags => Methods::GetHead,
            FlowPart::ReadOnly => Methods::GetHeadPut,
            FlowPart::Tag
            | FlowPart::Label
            | FlowPart::Description
            | FlowPart::Collection
            | FlowPart::MaxBitRate
            | FlowPart::AvgBitRate => Methods::GetHeadPutDelete,
        }
    }
}
