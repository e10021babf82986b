//! The laws of requests and entries: a written value is read again. Each function does nothing; its
//! contract is the law.

ghost use Rattle.satip_http.specs.declared.requests.HttpRequest.{HttpRequest as Get};
ghost use Rattle.satip_plain.specs.Values.{IsEvent, IsQuery, IsRequest};
ghost use Rattle.satip_entry_reader.specs.Reading.{NoneBegins, ReadsAgain};
ghost use Rattle.satip_entry_writer.specs.Records.{event_text};
ghost use Rattle.satip_entry_writer.specs.Requests.{http_request_text, query_text, request_text};
ghost use Rattle.satip_entry_reader.specs.ReadingEntries.{IsEntry, entry_text, entry_read};
ghost use Rattle.satip_entry_reader.specs.ReadingEvents.{event_read};
ghost use Rattle.satip_entry_reader.specs.ReadingRequests.{http_request_read, query_read, request_read};

/// States that each query and request is read again from its text, whatever follows it.
pub fn requests_are_read_again()
    ensures query { ReadsAgain IsQuery query_text query_read }
    ensures request { ReadsAgain IsRequest request_text request_read }
    ensures http_request { ReadsAgain (λ (r : Get). IsQuery r.query) http_request_text
        http_request_read }
{}

/// States that no text of a query or a request is a prefix of another's.
pub fn no_request_begins_another()
    ensures query { NoneBegins IsQuery query_text }
    ensures request { NoneBegins IsRequest request_text }
    ensures http_request { NoneBegins (λ (r : Get). IsQuery r.query) http_request_text }
{}

/// States that each event is read again from its text, and that no event's text is a prefix of
/// another's.
pub fn events_are_read_again()
    ensures again { ReadsAgain IsEvent event_text event_read }
    ensures none_begins { NoneBegins IsEvent event_text }
{}

/// States that each entry is read again from its record, and that no record is a prefix of another.
pub fn entries_are_read_again()
    ensures again { ReadsAgain IsEntry entry_text entry_read }
    ensures none_begins { NoneBegins IsEntry entry_text }
{}
