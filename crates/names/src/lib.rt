// The fields' names as 004 section 8.2 writes them, in UTF-8.
#![tactic(auto)]

ghost use Rattle.std.specs.Prelude.{◌≡◌};
ghost use Rattle.wire.specs.Laying.{Lays};
ghost use Rattle.names.specs.Names.{name_of};

use tables::dictionary::Field;
use wire::laying::{NotLaid, put_bytes};

// A field's name; the dash of Time In Force is U+2013.
fn name(field: Field) -> &'static str
    ensures { result.now ≡ name_of field }
{
    match field {
        Field::AggressorIndicator => "Aggressor Indicator",
        Field::BrokerLocationId => "Broker Location ID",
        Field::BusinessRejectCode => "Business Reject Code",
        Field::BusinessRejectReferenceId => "Business Reject Reference ID",
        Field::ClearingInstruction => "Clearing Instruction",
        Field::ClientOrderId => "Client Order ID",
        Field::CopyMessageIndicator => "Copy Message Indicator",
        Field::CounterpartyBrokerId => "Counterparty Broker ID",
        Field::CumulativeQuantity => "Cumulative Quantity",
        Field::EndSequence => "End Sequence",
        Field::ExecType => "Exec Type",
        Field::ExecutionId => "Execution ID",
        Field::ExecutionPrice => "Execution Price",
        Field::ExecutionQuantity => "Execution Quantity",
        Field::ExecRestatementReason => "Exec Restatement Reason",
        Field::ExchangeTradeType => "Exchange Trade Type",
        Field::GapFill => "Gap Fill",
        Field::LeavesQuantity => "Leaves Quantity",
        Field::LogoutText => "Logout Text",
        Field::LookupRejectCode => "Lookup Reject Code",
        Field::LotType => "Lot Type",
        Field::MatchType => "Match Type",
        Field::MaxPriceLevels => "Max Price Levels",
        Field::MessageRejectCode => "Message Reject Code",
        Field::NewPassword => "New Password",
        Field::NewSequenceNumber => "New Sequence Number",
        Field::NextExpectedMessageSequence => "Next Expected Message Sequence",
        Field::OrderId => "Order ID",
        Field::OwningBrokerId => "Owning Broker ID",
        Field::OrderQuantity => "Order Quantity",
        Field::OrderStatus => "Order Status",
        Field::OrderType => "Order Type",
        Field::OrderRestrictions => "Order Restrictions",
        Field::OrderCapacity => "Order Capacity",
        Field::OrderCategory => "Order Category",
        Field::OriginalClientOrderId => "Original Client Order ID",
        Field::Password => "Password",
        Field::PositionEffect => "Position Effect",
        Field::Price => "Price",
        Field::ProtocolType => "Protocol Type",
        Field::PrimaryIp => "Primary IP",
        Field::PrimaryPort => "Primary Port",
        Field::ReferenceExecutionId => "Reference Execution ID",
        Field::ReferenceFieldName => "Reference Field Name",
        Field::ReferenceMessageType => "Reference Message Type",
        Field::ReferenceSequenceNumber => "Reference Sequence Number",
        Field::ReferenceTestRequestId => "Reference Test Request ID",
        Field::Reason => "Reason",
        Field::SecurityExchange => "Security Exchange",
        Field::SecurityId => "Security ID",
        Field::SecurityIdSource => "Security ID Source",
        Field::SecondaryIp => "Secondary IP",
        Field::SecondaryPort => "Secondary Port",
        Field::SessionStatus => "Session Status",
        Field::Side => "Side",
        Field::SmpId => "SMP ID",
        Field::StartSequence => "Start Sequence",
        Field::Status => "Status",
        Field::SubmittingBrokerId => "Submitting Broker ID",
        Field::Text => "Text",
        Field::TimeInForce => "Time In Force – TIF",
        Field::TestMessageIndicator => "Test Message Indicator",
        Field::TestRequestId => "Test Request ID",
        Field::TransactionTime => "Transaction Time",
        Field::TradeType => "Trade Type",
        Field::TradeReportId => "Trade Report ID",
        Field::TradeReportTransType => "Trade Report Trans Type",
        Field::TradeReportType => "Trade Report Type",
        Field::TradeReportStatus => "Trade Report Status",
        Field::TradeId => "Trade ID",
        Field::TradeMatchId => "Trade Match ID",
        Field::TradeHandlingInstructions => "Trade Handling Instructions",
        Field::TypeOfService => "Type of Service",
    }
}

// A field's name at the front of a lent buffer.
pub fn put_name(d: &mut [u8], field: Field) -> Result<usize, NotLaid>
    ensures { Lays (name_of field) d.old result d.new }
{
    put_bytes(d, name(field).as_bytes())
}
